//! Where an answer ends, and whether its connection ends with it.
ghost use Rattle.std.specs.Prelude.{◌≡◌};
ghost use Rattle.http_range.specs.Announced.{announced_seen};
ghost use Rattle.http_range.specs.AnswerHead.{head_seen};
ghost use Rattle.http_range.specs.Frame.{frame_of, is_interim, length_announced, ReadsFrame};

use crate::answer_head::{AnswerHead, head_of};
use crate::reading::{Head, Why, announced_of};

/// What the head of an answer says of its end.
#[derive(Clone, Copy, Debug, PartialEq, Eq)]
pub struct Frame {
    /// The status code.
    pub status: u16,
    /// The length of the head in bytes.
    pub size: usize,
    /// The length of the body in bytes, where the head announces a piece of a file.
    pub length: Option<u64>,
    /// Whether the connection ends with the answer.
    pub closes: bool,
}

impl Frame {
    /// Returns whether the answer is an interim one, after which the answer itself follows (RFC 9110, section 15.2).
    /// 101 is none, since another protocol follows it.
    pub fn is_interim(&self) -> bool
        ensures { result ≡ is_interim self.now }
    {
        100 <= self.status && self.status < 200 && self.status != 101
    }
}

/// Returns the length of the body that a head announces.
fn length_announced(head: &Result<Head, Why>) -> Option<u64>
    ensures { result ≡ length_announced (announced_seen head.now) }
{
    match head {
        Ok(head) => Some(head.length),
        Err(_) => None,
    }
}

/// Returns what a whole head says of the answer's end.
fn frame_of(head: &AnswerHead) -> Frame
    ensures { result ≡ frame_of (head_seen head.now) }
{
    let length = length_announced(&announced_of(head));
    Frame {
        status: head.status,
        size: head.size,
        length,
        closes: head.says_close() || head.minor == 0 || length.is_none(),
    }
}

/// Reads where an answer ends from a front of it. The connection ends with the answer where the head says so
/// (RFC 9112, section 9.6), where it is of HTTP/1.0, and where it announces no piece of a file.
///
/// Fails with `Why::Cut` where the head isn't whole, and with `Why::Head` where there is none. `Why::Cut` may change with
/// the bytes that follow, as long as there are fewer than 4,096.
pub fn read_frame(bytes: &[u8]) -> Result<Frame, Why>
    ensures { ReadsFrame bytes.now result }
{
    let head = head_of(bytes)?;
    Ok(frame_of(&head))
}
