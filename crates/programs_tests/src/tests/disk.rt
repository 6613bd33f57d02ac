//! Files of the disk.
use programs::Disk;
use scripts::{LoadError, Source};
use std::fs;
use std::test::Fail;

const PATH: &str = "programs_tests_disk";

/// Returns why the disk refuses a path, if it does.
fn refused(rt: &HostRuntime, path: &[u8]) -> Option<LoadError> {
    let mut disk = Disk { rt };
    disk.load(path).err()
}

#[test]
fn reads_a_file_of_the_disk(rt: HostRuntime) -> Result<(), Fail> {
    assert_eq!(rt; refused(&rt, PATH.as_bytes()), Some(LoadError::CantRead));
    assert_eq!(rt;
        refused(&rt, b"programs\xfftests"),
        Some(LoadError::CantRead)
    );
    fs::write(&rt, PATH, "bytes")?;
    let mut disk = Disk { rt: &rt };
    let loaded = disk.load(PATH.as_bytes())?;
    fs::remove_file(&rt, PATH)?;
    assert_eq!(rt; loaded.as_slice(), b"bytes".as_slice());
    Ok(())
}
