//! What is wrong with a file.
ghost use Rattle.std.specs.Prelude.{◌≡◌};
ghost use Rattle.tiff_dir.specs.declared.fault.WalkError.TheVariants.{File, Memory};

use std::alloc::{AllocError, AllocFailed};

/// What is wrong with a file, or with what is asked of it. The rules are those of TIFF 6.0 in this profile, and of
/// GeoTIFF 1.1 (OGC 19-008, section 7.1). A file may have several faults.
#[derive(Clone, Copy, Debug, PartialEq, Eq)]
pub enum FileFault {
    /// The byte order marks or the number 42 are wrong.
    Header,
    /// A byte range that the query needs ends after the file.
    PastEnd,
    /// The offset of a directory is odd or below 8.
    DirPlace,
    /// A directory has no entries, or more than 256.
    DirCount,
    /// The tag of an entry isn't greater than the one before.
    TagOrder,
    /// An offset of a next directory other than 0 stands after 16 directories.
    TooManyDirs,
    /// A level lacks the field with this tag.
    Missing(u16),
    /// The field with this tag has another type or count.
    FieldType(u16),
    /// A value of the field with this tag is outside the profile.
    Unsupported(u16),
    /// A side is 0, the first directory is a reduced-resolution image, or a level isn't smaller than the one before.
    LevelShape,
    /// An array of tiles has another count than there are tiles, or there are more than 65,536 tiles.
    TileArray,
    /// A tile's side, plain size or byte count is wrong.
    TileSize,
    /// The packed bytes of a tile aren't packets that fill it.
    Packet,
    /// The window is empty, asks for 0 columns, or has a level that isn't there. Or it passes a side of the level that
    /// its numbers are given in.
    Outside,
    /// The window has more than 4,194,304 samples, or a field that georeferences the image more than 65,536 bytes.
    TooLarge,
    /// The key directory's version, revision or length is wrong.
    KeyHead,
    /// A key isn't greater than the one before.
    KeyOrder,
    /// The values of a key stand in no field, or end after their field. Or the value stands in the key's entry, and its
    /// Count isn't 1.
    KeyPlace,
}

impl FileFault {
    ghost use Rattle.tiff_dir.specs.FaultNumber.{number_of_fault, tag_of_fault};

    /// Returns the number of the fault, 1 to 18.
    pub fn number(self) -> u8
        ensures { result ≡ number_of_fault self }
    {
        match self {
            FileFault::Header => 1,
            FileFault::PastEnd => 2,
            FileFault::DirPlace => 3,
            FileFault::DirCount => 4,
            FileFault::TagOrder => 5,
            FileFault::TooManyDirs => 6,
            FileFault::Missing(_) => 7,
            FileFault::FieldType(_) => 8,
            FileFault::Unsupported(_) => 9,
            FileFault::LevelShape => 10,
            FileFault::TileArray => 11,
            FileFault::TileSize => 12,
            FileFault::Packet => 13,
            FileFault::Outside => 14,
            FileFault::TooLarge => 15,
            FileFault::KeyHead => 16,
            FileFault::KeyOrder => 17,
            FileFault::KeyPlace => 18,
        }
    }

    /// Returns the tag of the field that the fault is about, or `None` where it is about none.
    pub fn tag(self) -> Option<u16>
        ensures { result ≡ tag_of_fault self }
    {
        match self {
            FileFault::Missing(tag) | FileFault::FieldType(tag) | FileFault::Unsupported(tag) => {
                Some(tag)
            }
            _ => None,
        }
    }
}

/// Why a call that reads bytes of a file fails.
#[derive(Clone, Copy, Debug, PartialEq, Eq)]
pub enum WalkError {
    /// The file has this fault.
    File(FileFault),
    /// An allocation failed.
    Memory,
}

impl From<FileFault> for WalkError {
    ghost from_gives = { λ fault e. e ≡ File fault };

    fn from(fault: FileFault) -> WalkError {
        WalkError::File(fault)
    }
}

impl From<crate::Memory> for WalkError {
    ghost from_gives = { λ _ e. e ≡ Memory };

    fn from(_refused: crate::Memory) -> WalkError {
        WalkError::Memory
    }
}

impl From<AllocError> for WalkError {
    ghost from_gives = { λ _ e. e ≡ Memory };

    fn from(_refused: AllocError) -> WalkError {
        WalkError::Memory
    }
}

impl<T: Drop> From<AllocFailed<T>> for WalkError {
    ghost from_gives = { λ _ e. e ≡ Memory };

    fn from(_refused: AllocFailed<T>) -> WalkError {
        WalkError::Memory
    }
}
