//! The files of the disk that a script names.
use disk_files::{FileError, read_file};
use scripts::{LoadError, Source};
use std::io::ErrorKind;
use std::rt::Files;

/// Loads the files that a script names from the disk. A relative path starts at the current folder.
#[derive(Drop)]
pub struct Disk<'r, R> {
    pub rt: &'r R,
}

impl<R: Files + AllocGlobal> Source for Disk<'_, R> {
    fn load(&mut self, path: &[u8]) -> Result<Vec<u8>, LoadError> {
        let Ok(path) = str::from_utf8(path) else {
            return Err(LoadError::CantRead);
        };
        match read_file(self.rt, path) {
            Ok(bytes) => Ok(bytes),
            Err(FileError::Io(error)) if error.kind() == ErrorKind::OutOfMemory => {
                Err(LoadError::Memory)
            }
            Err(_) => Err(LoadError::CantRead),
        }
    }
}
