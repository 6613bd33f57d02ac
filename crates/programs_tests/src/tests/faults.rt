//! Faults that no command line of a test meets, reported as they are, and the faults of the file that help names.
use cog_server::PublishError;
use programs::Exit;
use programs_support::{Capture, tell};
use scripts::ScriptError;
use std::io;
use std::process::Abort;
use std::test::Fail;
use tiff_dir::FileFault;

/// A row has a fault of the file, its name and its line.
const FILE_FAULTS: [(FileFault, &str, &str); 18] = [
    (FileFault::Header, "Header", "cogread: fault 1\n"),
    (FileFault::PastEnd, "PastEnd", "cogread: fault 2\n"),
    (FileFault::DirPlace, "DirPlace", "cogread: fault 3\n"),
    (FileFault::DirCount, "DirCount", "cogread: fault 4\n"),
    (FileFault::TagOrder, "TagOrder", "cogread: fault 5\n"),
    (FileFault::TooManyDirs, "TooManyDirs", "cogread: fault 6\n"),
    (FileFault::Missing(256), "Missing", "cogread: fault 7 256\n"),
    (
        FileFault::FieldType(325),
        "FieldType",
        "cogread: fault 8 325\n",
    ),
    (
        FileFault::Unsupported(339),
        "Unsupported",
        "cogread: fault 9 339\n",
    ),
    (FileFault::LevelShape, "LevelShape", "cogread: fault 10\n"),
    (FileFault::TileArray, "TileArray", "cogread: fault 11\n"),
    (FileFault::TileSize, "TileSize", "cogread: fault 12\n"),
    (FileFault::Packet, "Packet", "cogread: fault 13\n"),
    (FileFault::Outside, "Outside", "cogread: fault 14\n"),
    (FileFault::TooLarge, "TooLarge", "cogread: fault 15\n"),
    (FileFault::KeyHead, "KeyHead", "cogread: fault 16\n"),
    (FileFault::KeyOrder, "KeyOrder", "cogread: fault 17\n"),
    (FileFault::KeyPlace, "KeyPlace", "cogread: fault 18\n"),
];

/// Returns whether the fault is printed as this line on standard error, with this status.
fn is_told(
    capture: Capture<'_, HostRuntime>,
    program: &str,
    fault: &Exit,
    line: &str,
    status: u8,
) -> bool {
    let told = fault.tell(&capture, program);
    let (out, err) = capture.into_texts();
    out.is_empty()
        && err.as_slice() == line.as_bytes()
        && told == status
        && fault.status() == status
}

#[test]
fn tells_a_fault_by_its_program_and_words(rt: HostRuntime) -> Result<(), Fail> {
    let of_script = Exit::Script(ScriptError::Memory);
    let table = [
        (Exit::NotText, "cogtools", "a word isn't text", 2),
        (Exit::Memory, "cogserve", "out of memory", 1),
        (Exit::Memory, "cogread", "out of memory", 1),
        (of_script, "cogworld", "out of memory", 1),
        (Exit::CantAccept, "cogserve", "can't accept", 1),
        (Exit::CantWait, "cogserve", "can't wait", 1),
        (Exit::CantWrite, "cogserve", "can't write", 1),
    ];
    for (fault, program, words, status) in table {
        assert!(rt;
            is_told_by_words(&rt, program, &fault, words, status)?,
            "{program}: {words}"
        );
    }
    Ok(())
}

#[test]
fn tells_nothing_where_nobody_reads(rt: HostRuntime) -> Result<(), Fail> {
    let capture = Capture::new(&rt);
    let fault = Exit::from(io::Error::from(io::ErrorKind::BrokenPipe));
    assert_eq!(rt; fault.tell(&capture, "cogtools"), 1);
    let (out, err) = capture.into_texts();
    assert!(rt; out.is_empty() && err.is_empty());
    Ok(())
}

/// Returns whether the fault is printed as its program and these words, with this status.
fn is_told_by_words(
    rt: &HostRuntime,
    program: &str,
    fault: &Exit,
    words: &str,
    status: u8,
) -> Result<bool, Fail> {
    let line = format!(in rt.alloc(); "{program}: {words}\n")?;
    Ok(is_told(Capture::new(rt), program, fault, line.as_str(), status))
}

#[test]
fn tells_a_fault_of_the_file_by_its_number(rt: HostRuntime) {
    for (fault, _, line) in FILE_FAULTS {
        assert!(rt;
            is_told(Capture::new(&rt), "cogread", &Exit::OfFile(fault), line, 3),
            "{line}"
        );
    }
}

/// Expects the line of the fifth refusal, which needs more publications than a test can make.
#[test]
fn tells_that_an_epoch_is_exhausted(rt: HostRuntime) -> Result<(), Fail> {
    let refused = Exit::Refused(PublishError::Exhausted, String::from_str(rt.alloc(), "a")?);
    assert!(rt;
        is_told(
            Capture::new(&rt),
            "cogserve",
            &refused,
            "cogserve: refused 5 a\n",
            1
        )
    );
    Ok(())
}

#[test]
fn tells_each_fault_by_its_number_and_name(rt: HostRuntime) -> Result<(), Fail> {
    let told = tell(&rt, &["cogread", "--help"])?;
    let help = str::from_utf8(&told.out).unwrap_or_default();
    for (fault, name, _) in FILE_FAULTS {
        expect_named(&rt, help, fault.number(), name)?;
    }
    Ok(())
}

/// Expects that help names a fault with its number.
fn expect_named<R: Abort + AllocGlobal>(
    rt: &R,
    help: &str,
    number: u8,
    name: &str,
) -> Result<(), Fail> {
    let part = format!(in rt.alloc(); "\n  {number:>2}  {name} ")?;
    assert!(rt; help.contains(part.as_str()), "{name}");
    Ok(())
}
