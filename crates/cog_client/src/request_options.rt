//! How a client asks.
use http_range::RequestFields;

/// The most bytes of a request of a plain client, as `Client::new` makes it, to which no field was added. The limit is
/// our own.
pub const REQUEST_LIMIT: usize = 1024;

/// The most bytes of any client's request. The limit is our own.
pub const URL_REQUEST_LIMIT: usize = 4096;

/// How a client asks, apart from what it asks for.
#[derive(Drop)]
pub struct RequestOptions {
    /// Whether requests ask the server to close the connection after the answer.
    pub closes: bool,
    /// The most blocks that a request asks for beyond the missing ones of the next range. They are needed later.
    pub ahead: u32,
    /// The field lines that each request and check has, beside its own.
    pub fields: RequestFields,
}
