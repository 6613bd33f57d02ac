//! How serving a stream ends.
use http_range::Memory;
use thiserror::Error;

/// What ends the answers to a stream.
#[derive(Clone, Copy, Debug, PartialEq, Eq)]
pub enum Ended {
    /// The last answer closes the connection.
    Closed,
    /// No whole message is left, and the input is at its end.
    EndOfInput,
    /// A hundred answers were given, and none of them closes the connection.
    Limit,
}

/// How many answers were written, and what ended them.
#[derive(Clone, Copy, Debug, PartialEq, Eq)]
pub struct Served {
    /// The number of answers.
    pub answers: usize,
    /// What ended them.
    pub ended: Ended,
}

/// Why serving a stream failed.
#[derive(Clone, Copy, Debug, Error, PartialEq, Eq)]
pub enum ServeError {
    /// A read failed. All whole messages before it are answered.
    #[error("can't read")]
    Read,
    /// A write failed, or took nothing. Some first bytes of the answers are written.
    #[error("can't write")]
    Write,
    /// An allocation failed. Whole answers to the first messages are written.
    #[error("out of memory")]
    Memory,
}

impl From<Memory> for ServeError {
    ghost use Rattle.std.specs.Prelude.{◌≡◌};
    ghost use Rattle.cog_server.specs.declared.served.ServeError.TheVariants.{Memory as memory};

    ghost from_gives = { λ _ e. e ≡ memory };

    fn from(_refused: Memory) -> ServeError {
        ServeError::Memory
    }
}

impl ServeError {
    ghost use Rattle.std.specs.Prelude.{◌≡◌};
    ghost use Rattle.cog_server.specs.Serve.{number_of_failure};

    /// Returns the number of the failure, 1 to 3.
    pub fn number(self) -> u8
        ensures { result ≡ number_of_failure self }
    {
        match self {
            ServeError::Read => 1,
            ServeError::Write => 2,
            ServeError::Memory => 3,
        }
    }
}
