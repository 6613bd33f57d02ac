//! The lines of the log.
ghost use Rattle.std.specs.Prelude.{Some};
ghost use Rattle.server_files.specs.Lines.{client_text};

use http_range::{Request, read_request};
use server_sockets::LoggedAnswer;
use std::fmt;
use std::net::SocketAddr;

/// The line with the address at which the server listens, as the system gave it.
#[derive(Clone, Copy)]
pub struct Listening(pub SocketAddr);

impl fmt::Display for Listening {
    fn fmt<W: fmt::Write>(&self, f: &mut fmt::Formatter<W>) -> fmt::Result {
        write!(f, "listening at {}", self.0)
    }
}

/// The address of the client that a line concerns, as `1.2.3.4:5678` or `[::1]:5678`, or `-` where it concerns none.
#[derive(Clone, Copy)]
pub struct LogClient(pub Option<SocketAddr>);

impl fmt::Display for LogClient {
    ghost output = { λ client. Some (client_text client.0) };

    fn fmt<W: fmt::Write>(&self, f: &mut fmt::Formatter<W>) -> fmt::Result {
        match &self.0 {
            Some(address) => fmt::Display::fmt(address, f),
            None => f.write_str("-"),
        }
    }
}

/// Bytes of a message as text. A backslash, and a byte that isn't printable, becomes `\x` and two digits.
#[derive(Clone, Copy)]
struct EscapedBytes<'a>(&'a [u8]);

impl fmt::Display for EscapedBytes<'_> {
    fn fmt<W: fmt::Write>(&self, f: &mut fmt::Formatter<W>) -> fmt::Result {
        for byte in self.0 {
            match byte {
                b'\\' => f.write_str("\\x5c")?,
                b' '..=b'~' => f.write_char(char::from(*byte))?,
                _ => write!(f, "\\x{byte:02x}")?,
            }
        }
        Ok(())
    }
}

/// The line of an answer, after its client. It has the connection, the method, the target and the Range of the request, the status code,
/// and the length of the body.
#[derive(Drop)]
pub struct AnswerLine<'m> {
    /// The message that is answered, or `None` where it wasn't kept.
    pub message: Option<&'m [u8]>,
    pub answer: LoggedAnswer,
}

/// Writes the method, the target and the Range of a request.
fn write_request<W: fmt::Write>(f: &mut fmt::Formatter<W>, request: &Request<'_>) -> fmt::Result {
    write!(
        f,
        "{} {}",
        EscapedBytes(request.method()),
        EscapedBytes(request.target())
    )?;
    match request.only(b"range") {
        Some(range) => write!(f, " {}", EscapedBytes(range)),
        None => Ok(()),
    }
}

impl fmt::Display for AnswerLine<'_> {
    fn fmt<W: fmt::Write>(&self, f: &mut fmt::Formatter<W>) -> fmt::Result {
        write!(f, "connection {}: ", self.answer.connection)?;
        let request = match self.message {
            Some(message) => read_request(message),
            None => None,
        };
        match &request {
            Some(request) => write_request(f, request)?,
            None => f.write_str("no request")?,
        }
        let (status, length) = (self.answer.status, self.answer.length);
        write!(f, ": {status}, {length} bytes")
    }
}
