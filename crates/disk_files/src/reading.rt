//! The bytes of a file of the disk.
ghost use Rattle.std.specs.Prelude.{◌≡◌, ◌<◌, ◌+◌, ℕ, List, IfOk, IfSome, MatchOption, None, Some, length, take};
ghost use Rattle.http_range.specs.declared.publication.TheConstants.{FILE_LIMIT};
ghost use Rattle.disk_files.specs.Given.{IsDifference};

use crate::stamp::Stamp;
use http_range::FILE_LIMIT;
use std::alloc::Global;
use std::fs::{File, OpenFile};
use std::io;
use std::io::Read;
use std::rt::Files;
use thiserror::Error;

/// One byte more than a published file may have. What comes after it isn't read.
const ENOUGH: u64 = FILE_LIMIT as u64 + 1;

/// The number of bytes that are compared at once.
const PIECE: usize = 65_536;

/// Returns the bytes that a reader gives, but at most `FILE_LIMIT + 1`: that many show that a file is too large to be published. Fails
/// where the reader does, or where no memory is left.
pub fn enough_of<R: Read + Drop>(alloc: Global, reader: R) -> io::Result<Vec<u8>>
    ensures { IfOk result (λ bytes. (given : List ℕ) → R.remaining reader ≡ Some given → bytes.items ≡ take (FILE_LIMIT + 1) given) }
{
    let mut bytes = Vec::new(alloc);
    reader.take(ENOUGH).read_to_end(&mut bytes)?;
    Ok(bytes)
}

/// Says why the bytes of a file aren't returned.
#[derive(Debug, Drop, Error)]
pub enum FileError {
    /// The system says why.
    #[error("{0}")]
    Io(io::Error),
    /// Another program wrote to the file while it was read. So its bytes may be of two contents.
    #[error("it was written while it was read")]
    Written,
}

impl From<io::Error> for FileError {
    ghost use Rattle.std.specs.Prelude.{◌≡◌};
    ghost use Rattle.disk_files.specs.declared.reading.FileError.TheVariants.{Io};

    ghost from_gives = { λ error told. told ≡ Io error };

    fn from(error: io::Error) -> FileError {
        FileError::Io(error)
    }
}

/// Returns the bytes of the file at a path, but at most `FILE_LIMIT + 1`. Fails with `Io` where it can't be opened or read, or where no
/// memory is left. Fails with `Written` where its length or its times changed meanwhile.
pub fn read_file<R: Files + AllocGlobal>(rt: &R, path: &str) -> Result<Vec<u8>, FileError>
    ensures { IfOk result (λ bytes. (file : R.File)
        × ((given : List ℕ) → R.File.remaining file ≡ Some given → bytes.items ≡ take (FILE_LIMIT + 1) given)) }
{
    let mut file = File::open(rt, path)?;
    let before = Stamp::of(&file.metadata()?);
    let bytes = enough_of(rt.alloc(), &mut file)?;
    if Stamp::of(&file.metadata()?) != before {
        return Err(FileError::Written);
    }
    Ok(bytes)
}

/// Holds where a reader gives other bytes than expected. `same` bytes came as expected, and then a piece with `other` bytes, which is empty
/// where the reader has ended.
#[derive(Clone, Copy)]
pub struct Difference {
    pub same: usize,
    pub other: usize,
}

/// Reads until a reader has given other bytes than `bytes`, or has ended. Returns `None` where it gave just `bytes`. Each comparison reads
/// into `piece`.
fn first_difference<R: Read>(
    reader: &mut R,
    piece: &mut [u8],
    bytes: &[u8],
) -> io::Result<Option<Difference>>
    requires { 0 < length piece.old }
    ensures just { IfOk result (λ found. found ≡ None → (given : List ℕ) → R.remaining reader.old ≡ Some given → given ≡ bytes.now) }
    ensures other { IfOk result (λ found. IfSome found
        (IsDifference (R.remaining reader.old) (R.remaining reader.new) bytes.now piece.new)) }
{
    let mut rest = bytes;
    for _ in 0..=bytes.len() {
        let other = reader.read(piece)?;
        let same = bytes.len() - rest.len();
        if other == 0 && rest.is_empty() {
            return Ok(None);
        }
        match rest.strip_prefix(&piece[..other]) {
            Some(behind) if other > 0 => rest = behind,
            _ => return Ok(Some(Difference { same, other })),
        }
    }
    unreachable!()
}

/// Returns the bytes that a reader gives, but at most `FILE_LIMIT + 1`, or `None` where they are just `bytes`. As long as they are the
/// same, only a piece of them is held. Fails where the reader does, or where no memory is left.
pub fn other_bytes<R: Read + Drop>(
    alloc: Global,
    mut reader: R,
    bytes: &[u8],
) -> io::Result<Option<Vec<u8>>>
    ensures { IfOk result (λ other. (given : List ℕ) → R.remaining reader ≡ Some given
        → MatchOption other (given ≡ bytes.now) (λ other. other.items ≡ take (FILE_LIMIT + 1) given)) }
{
    let mut piece = vec![in alloc; 0u8; PIECE]?;
    let Some(found) = first_difference(&mut reader, &mut piece, bytes)? else {
        return Ok(None);
    };
    let mut all = Vec::new(alloc);
    all.extend_from_slice(&bytes[..found.same])?;
    all.extend_from_slice(&piece[..found.other])?;
    reader
        .take(ENOUGH.saturating_sub(all.len() as u64))
        .read_to_end(&mut all)?;
    all.truncate(ENOUGH as usize);
    Ok(Some(all))
}
