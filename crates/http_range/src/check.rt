//! A client's check whether a file is still the one that it knows (RFC 9110, section 13.1.2).
ghost use Rattle.std.specs.Prelude.{◌≡◌};
ghost use Rattle.http_range.specs.AnswerHead.{head_seen};
ghost use Rattle.http_range.specs.Piece.{check_seen};
ghost use Rattle.http_range.specs.Reading.{check_tag, ReadsCheck};

use crate::answer_head::{AnswerHead, head_of};
use crate::reading::{Why, has_other_status};
use http_fields::tag::Tag;

/// What the answer to a check says: the ETag under which the server has the file, or why the answer isn't used.
#[derive(Debug, Drop)]
pub enum CheckReading {
    /// The server has the file under this ETag.
    Seen(Tag),
    /// The answer isn't used, for this reason.
    NotUsed(Why),
}

fn check_tag(head: &AnswerHead) -> Result<Tag, Why>
    ensures { result ≡ check_tag (head_seen head.now) }
{
    if has_other_status(head) && head.status != 304 {
        return Err(Why::Status(head.status));
    }
    head.tag()
}

fn read(bytes: &[u8]) -> Result<Tag, Why>
    ensures { ReadsCheck bytes.now result }
{
    let head = head_of(bytes)?;
    check_tag(&head)
}

/// Returns what the answer to a check says. `bytes` is the answer, or a front of it.
pub fn read_check(bytes: &[u8]) -> CheckReading
    ensures { ReadsCheck bytes.now (check_seen result) }
{
    match read(bytes) {
        Ok(tag) => CheckReading::Seen(tag),
        Err(why) => CheckReading::NotUsed(why),
    }
}
