//! `cogread --output`: the file is there whole, or as it was.
use super::{FaultRow, expect_faults};
use disk_files::replace_file;
use std::fs;
use std::os::unix::fs::symlink;
use std::process::Abort;
use std::rt::Files;
use std::test::Fail;

const PATH: &str = "programs_tests_output";

const BESIDE: &str = "programs_tests_output.part";

#[test]
fn replaces_the_file(rt: HostRuntime) -> Result<(), Fail> {
    fs::write(&rt, PATH, "before")?;
    replace_file(&rt, PATH, b"af", b"ter")?;
    assert_eq!(rt; fs::read(&rt, PATH)?.as_slice(), b"after".as_slice());
    assert!(rt; fs::metadata(&rt, BESIDE).is_err());
    fs::remove_file(&rt, PATH)?;
    Ok(())
}

/// Returns whether a file has just these bytes.
fn has<R: Files + AllocGlobal>(rt: &R, path: &str, bytes: &[u8]) -> bool {
    match fs::read(rt, path) {
        Ok(read) => read.as_slice() == bytes,
        Err(_) => false,
    }
}

/// Expects that another name of the file still has the former bytes.
#[test]
fn puts_another_file_in_its_place(rt: HostRuntime) -> Result<(), Fail> {
    let (path, name) = ("programs_tests_place", "programs_tests_name");
    fs::write(&rt, path, "before")?;
    fs::hard_link(&rt, path, name)?;
    replace_file(&rt, path, b"af", b"ter")?;
    assert_eq!(rt;
        (has(&rt, path, b"after"), has(&rt, name, b"before")),
        (true, true)
    );
    fs::remove_file(&rt, path)?;
    fs::remove_file(&rt, name)?;
    Ok(())
}

/// Expects that a link isn't followed that stands where the file is written first. What it leads to stays as it is, there or not.
#[test]
fn follows_no_link_beside_the_file(rt: HostRuntime) -> Result<(), Fail> {
    let path = "programs_tests_linked";
    fs::write(&rt, path, "before")?;
    expect_other_kept(&rt, path, "programs_tests_other")?;
    expect_none_made(&rt, path, "programs_tests_missing")?;
    fs::remove_file(&rt, path)?;
    Ok(())
}

const BESIDE_LINKED: &str = "programs_tests_linked.part";

/// Expects that the other file that a link leads to is kept, and that a file takes the path, not the link.
fn expect_other_kept<R: Abort + Files + AllocGlobal>(
    rt: &R,
    path: &str,
    other: &str,
) -> Result<(), Fail> {
    fs::write(rt, other, "other")?;
    symlink(rt, other, BESIDE_LINKED)?;
    replace_file(rt, path, b"af", b"ter")?;
    let is_file = fs::symlink_metadata(rt, path)?.is_file();
    assert_eq!(rt;
        (has(rt, path, b"after"), has(rt, other, b"other"), is_file),
        (true, true, true)
    );
    fs::remove_file(rt, other)?;
    Ok(())
}

/// Expects that no file is made where a link leads to none, and that the link is gone.
fn expect_none_made<R: Abort + Files + AllocGlobal>(
    rt: &R,
    path: &str,
    none: &str,
) -> Result<(), Fail> {
    symlink(rt, none, BESIDE_LINKED)?;
    replace_file(rt, path, b"", b"last")?;
    let is_made = fs::symlink_metadata(rt, none).is_ok();
    let is_beside = fs::symlink_metadata(rt, BESIDE_LINKED).is_ok();
    assert_eq!(rt;
        (has(rt, path, b"last"), is_made, is_beside),
        (true, false, false)
    );
    Ok(())
}

/// Expects that the file is kept where a folder stands in that place.
#[test]
fn leaves_the_file_where_nothing_can_be_written(rt: HostRuntime) -> Result<(), Fail> {
    let (path, beside) = ("programs_tests_kept", "programs_tests_kept.part");
    fs::write(&rt, path, "before")?;
    fs::create_dir(&rt, beside)?;
    let is_refused = replace_file(&rt, path, b"after", b"").is_err();
    assert_eq!(rt; (is_refused, has(&rt, path, b"before")), (true, true));
    fs::remove_dir(&rt, beside)?;
    fs::remove_file(&rt, path)?;
    Ok(())
}

/// Expects that a folder isn't replaced by a file.
#[test]
fn leaves_nothing_of_a_file_that_is_not_written(rt: HostRuntime) -> Result<(), Fail> {
    assert!(rt; replace_file(&rt, "programs_tests_nowhere/a", b"text", b"").is_err());
    assert!(rt; replace_file(&rt, "programs_tests_a/", b"text", b"").is_err());
    assert!(rt; fs::metadata(&rt, "programs_tests_a").is_err());
    Ok(())
}

/// Expects that a device isn't replaced: what is written goes to it. This one is always full.
#[test]
fn replaces_no_device(rt: HostRuntime) {
    assert!(rt; replace_file(&rt, "/dev/full", b"", b"text").is_err());
}

/// Expects that no file is made where nothing is read.
#[test]
fn makes_no_file_without_a_report(rt: HostRuntime) -> Result<(), Fail> {
    let rows: [FaultRow<'static>; 1] = [(
        "cogread info 127.0.0.1:1 a --requests 1 --output programs_tests_none",
        "cogread: no report\n",
        4,
    )];
    expect_faults(&rt, &rows)?;
    assert!(rt; fs::metadata(&rt, "programs_tests_none").is_err());
    Ok(())
}
