//! The failures of calls, which the header numbers.
ghost use Rattle.std.specs.Prelude.{◌≡◌};
ghost use Rattle.delgunsai_c.specs.Failure.{failure_in, failure_of_field, failure_of_url};

use cog_client::{ClientError, FieldError, UrlError};

/// Says why a call gives no answer. Each has a negative number in the header.
#[derive(Clone, Copy, Debug, PartialEq, Eq)]
pub enum Failure {
    /// The host isn't 1 to 64 letters, digits, `.`, `-`, `:`.
    Host,
    /// The name isn't 1 to 200 bytes of `A-Z a-z 0-9 . _ - /`.
    Name,
    /// The cache has fewer than 66 or more than 4,096 blocks.
    Blocks,
    /// No memory was left.
    Memory,
    /// The handle has no client.
    NoClient,
    /// No report stands.
    NoReport,
    /// The report is of another kind.
    OtherReport,
    /// The call doesn't fit what is under way.
    Order,
    /// The authority isn't host and port of 1 to 255 bytes.
    Authority,
    /// The target isn't path and query of at most 2,048 bytes.
    Target,
    /// The name of a field isn't a token.
    FieldName,
    /// The name of a field is reserved.
    FieldReserved,
    /// The value of a field isn't visible ASCII with spaces and tabs inside.
    FieldValue,
    /// There are 16 fields.
    FieldLines,
    /// All fields together would have more than 1,024 bytes.
    FieldBytes,
}

impl Failure {
    ghost use Rattle.delgunsai_c.specs.Failure.{code_of};

    /// Returns the negative number in the header.
    pub fn code(self) -> i32
        ensures { result ≡ code_of self }
    {
        match self {
            Failure::Host => -1,
            Failure::Name => -2,
            Failure::Blocks => -3,
            Failure::Memory => -4,
            Failure::NoClient => -5,
            Failure::NoReport => -6,
            Failure::OtherReport => -7,
            Failure::Order => -8,
            Failure::Authority => -9,
            Failure::Target => -10,
            Failure::FieldName => -11,
            Failure::FieldReserved => -12,
            Failure::FieldValue => -13,
            Failure::FieldLines => -14,
            Failure::FieldBytes => -15,
        }
    }
}

/// Returns the failure for an error of making a client.
pub fn failure_of(error: &ClientError) -> Failure
    ensures { result ≡ failure_in error.now }
{
    match error {
        ClientError::Host => Failure::Host,
        ClientError::Name => Failure::Name,
        ClientError::Blocks => Failure::Blocks,
        ClientError::Memory => Failure::Memory,
    }
}

/// Returns the failure for an error of making a client of a URL.
pub fn failure_of_url(error: UrlError) -> Failure
    ensures { result ≡ failure_of_url error }
{
    match error {
        UrlError::Authority => Failure::Authority,
        UrlError::Target => Failure::Target,
        UrlError::Blocks => Failure::Blocks,
        UrlError::Memory => Failure::Memory,
    }
}

/// Returns the failure for an error of adding a field.
pub fn failure_of_field(error: FieldError) -> Failure
    ensures { result ≡ failure_of_field error }
{
    match error {
        FieldError::Name => Failure::FieldName,
        FieldError::Reserved => Failure::FieldReserved,
        FieldError::Value => Failure::FieldValue,
        FieldError::Lines => Failure::FieldLines,
        FieldError::Bytes => Failure::FieldBytes,
        FieldError::Memory => Failure::Memory,
    }
}
