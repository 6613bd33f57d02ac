//! Why a file isn't published.
use thiserror::Error;

/// Why a file isn't published.
#[derive(Debug, Drop, Error)]
pub enum PublishError {
    /// The name isn't 1 to 200 bytes of `A-Z a-z 0-9 . _ - /`.
    #[error("not a name of a file")]
    Name,
    /// The file has no bytes.
    #[error("the file is empty")]
    Empty,
    /// The file has more than 67,108,864 bytes.
    #[error("the file is too large")]
    TooLarge,
    /// The catalogue has 64 other names.
    #[error("there are 64 other names")]
    TooManyNames,
    /// The epoch has no number left: it had 4,294,967,295 publications.
    #[error("the epoch has no number left")]
    Exhausted,
    /// An allocation failed.
    #[error("out of memory")]
    Memory,
}

impl PublishError {
    ghost use Rattle.std.specs.Prelude.{◌≡◌};
    ghost use Rattle.cog_server.specs.Server.{number_of_refusal};

    /// Returns the number of the error, 1 to 6.
    pub fn number(&self) -> u8
        ensures { result ≡ number_of_refusal self.now }
    {
        match self {
            PublishError::Name => 1,
            PublishError::Empty => 2,
            PublishError::TooLarge => 3,
            PublishError::TooManyNames => 4,
            PublishError::Exhausted => 5,
            PublishError::Memory => 6,
        }
    }
}
