//! Why there is no text of a file.
use cog_client::{FetchError, Why};
use extents::Memory;
use text_description::NoPixels;
use tiff_dir::FileFault;

/// Says why there is no text of a file.
#[derive(Clone, Copy, Debug, PartialEq, Eq)]
pub enum ReadError {
    /// The report is this fault of the file.
    OfFile(FileFault),
    /// No report stands that has what is asked.
    NoReport,
    /// The first answer isn't used for this reason, and no later one is expected to be.
    NotUsed(Why),
    /// The rectangle that is asked for gives no window of the file, for this reason.
    NoWindow(NoPixels),
    /// A world file is asked for, and the file doesn't say where its pixels lie.
    NoWorld,
    /// No memory was left.
    Memory,
}

impl From<Memory> for ReadError {
    ghost use Rattle.std.specs.Prelude.{◌≡◌};
    ghost use Rattle.read_command.specs.declared.error.ReadError.TheVariants.{Memory};

    ghost from_gives = { λ _ error. error ≡ Memory };

    fn from(_refused: Memory) -> ReadError {
        ReadError::Memory
    }
}

impl From<FetchError> for ReadError {
    ghost use Rattle.std.specs.Prelude.{◌≡◌};
    ghost use Rattle.read_command.specs.declared.error.ReadError.TheVariants.{Memory};

    ghost from_gives = { λ _ error. error ≡ Memory };

    fn from(refused: FetchError) -> ReadError {
        match refused {
            FetchError::Memory => ReadError::Memory,
        }
    }
}
