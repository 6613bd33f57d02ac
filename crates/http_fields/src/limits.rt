//! The limits of names, ETags, heads and connections. They are this project's own: RFC 9110 and RFC 9112 leave them
//! open.

/// The most bytes of a file's name.
pub const NAME_LIMIT: usize = 200;

/// The most bytes of a host's name.
pub const HOST_LIMIT: usize = 64;

/// The most field lines of a head.
pub const FIELD_LIMIT: usize = 32;

/// The most bytes of an ETag.
pub const TAG_LIMIT: usize = 64;

/// The most bytes of the head of an answer.
pub const HEAD_LIMIT: usize = 4096;

/// The most bytes of a message.
pub const MESSAGE_LIMIT: usize = 8192;

/// The most answers on one connection.
pub const ANSWERS_LIMIT: usize = 100;

/// The most bytes of the target of a request.
pub const TARGET_LIMIT: usize = 2048;

/// The most bytes of the host and the port of a URL.
pub const AUTHORITY_LIMIT: usize = 255;

/// The most field lines that a caller adds to a request.
pub const EXTRA_LINES_LIMIT: usize = 16;

/// The most bytes of all these lines.
pub const EXTRA_BYTES_LIMIT: usize = 1024;
