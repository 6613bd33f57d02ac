//! Why a client isn't made, and why fetching ends without an answer.
use thiserror::Error;

/// Why a client isn't made.
#[derive(Debug, Drop, Error)]
pub enum ClientError {
    /// The host isn't 1 to 64 letters, digits, `.`, `-`, `:`.
    #[error("not a host")]
    Host,
    /// The name isn't 1 to 200 bytes of `A-Z a-z 0-9 . _ - /`.
    #[error("not a name of a file")]
    Name,
    /// The cache has fewer than 66 or more than 4,096 blocks.
    #[error("a cache has 66 to 4,096 blocks")]
    Blocks,
    /// An allocation failed.
    #[error("out of memory")]
    Memory,
}

impl ClientError {
    ghost use Rattle.std.specs.Prelude.{◌≡◌};
    ghost use Rattle.cog_client.specs.Client.{number_of_client_error};

    /// Returns the number of the error, 1 to 4.
    pub fn number(&self) -> u8
        ensures { result ≡ number_of_client_error self.now }
    {
        match self {
            ClientError::Host => 1,
            ClientError::Name => 2,
            ClientError::Blocks => 3,
            ClientError::Memory => 4,
        }
    }
}

impl From<std::alloc::AllocError> for ClientError {
    ghost use Rattle.cog_client.specs.declared.error.ClientError.TheVariants.{Memory};

    ghost from_gives = { λ _ e. e ≡ Memory };

    ghost use Rattle.std.specs.Prelude.{◌≡◌};

    fn from(_refused: std::alloc::AllocError) -> ClientError {
        ClientError::Memory
    }
}

/// Why a client of a URL isn't made.
#[derive(Clone, Copy, Debug, Error, PartialEq, Eq)]
pub enum UrlError {
    /// The authority isn't host and port of 1 to 255 bytes, without userinfo (RFC 3986, sections 3.2.2 and 3.2.3).
    #[error("not a host with its port")]
    Authority,
    /// The target isn't path and query of at most 2,048 bytes (RFC 9112, section 3.2.1).
    #[error("not a path with its query")]
    Target,
    /// The cache has fewer than 66 or more than 4,096 blocks.
    #[error("a cache has 66 to 4,096 blocks")]
    Blocks,
    /// An allocation failed.
    #[error("out of memory")]
    Memory,
}

impl From<std::alloc::AllocError> for UrlError {
    ghost use Rattle.cog_client.specs.declared.error.UrlError.TheVariants.{Memory};

    ghost from_gives = { λ _ e. e ≡ Memory };

    ghost use Rattle.std.specs.Prelude.{◌≡◌};

    fn from(_refused: std::alloc::AllocError) -> UrlError {
        UrlError::Memory
    }
}

/// Why fetching ended without an answer.
#[derive(Clone, Copy, Debug, Error, PartialEq, Eq)]
pub enum FetchError {
    /// An allocation for a request or its answer failed. The client can go on.
    #[error("out of memory")]
    Memory,
}

impl FetchError {
    ghost use Rattle.std.specs.Prelude.{◌≡◌};

    /// Returns the number of the error, 1.
    pub fn number(self) -> u8
        ensures { result ≡ 1 }
    {
        match self {
            FetchError::Memory => 1,
        }
    }
}

impl From<extents::Memory> for FetchError {
    fn from(_refused: extents::Memory) -> FetchError {
        FetchError::Memory
    }
}
