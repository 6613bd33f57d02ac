//! The head of an answer that comes in pieces. Its bytes are kept until it is whole.
ghost use Rattle.std.specs.Prelude.{◌<◌, ◌≡◌, ◌≢◌, Err, false, length, take, true};
ghost use Rattle.http_fields.specs.declared.limits.TheConstants.{HEAD_LIMIT};
ghost use Rattle.http_range.specs.declared.reading.Why.TheVariants.{Cut, Head as AHead};
ghost use Rattle.http_range.specs.Laws.{HasNone};
ghost use Rattle.cog_client.specs.Head.{HasNoHead, Looks};

use crate::body::copy;
use http_fields::limits::HEAD_LIMIT;
use http_range::{Head, HeadReading, Why, law_heads_grow, read_head};

/// The most bytes of a head.
pub const HEAD_ROOM: usize = HEAD_LIMIT;

/// What is known of an answer's head, after more bytes of the answer came.
#[derive(Drop)]
pub enum Look {
    /// It isn't whole. The value is the number of bytes that are kept.
    Waits(usize),
    /// The answer isn't used, whatever follows.
    Unused(Why),
    /// It is whole. The second value is the place at which the body begins, in the bytes that came.
    Found(Head, usize),
}

/// Returns whether the reason is only that no head is there so far.
fn may_change(why: Why) -> bool
    ensures changes { result ≡ true → HasNone (Err why) }
    ensures stays { result ≡ false → (why ≢ Cut) × (why ≢ AHead) }
{
    match why {
        Why::Cut | Why::Head => true,
        _ => false,
    }
}

/// Keeps the next bytes of an answer, and reads its head. `room` has 4,096 bytes. The first `len` of them are the bytes
/// before, which had no head yet.
pub fn read_on(room: &mut [u8], len: usize, bytes: &[u8]) -> Look
    requires short { len < HEAD_LIMIT }
    requires room { length room.old ≡ HEAD_LIMIT }
    requires none { HasNoHead (take len room.old) }
    ensures room { length room.new ≡ HEAD_LIMIT }
    ensures looks { Looks (take len room.old) bytes.now room.new result }
{
    law_heads_grow();
    let count = bytes.len().min(HEAD_ROOM - len);
    copy(room, len, &bytes[..count]);
    let have = len + count;
    match read_head(&room[..have]) {
        HeadReading::Head(head) => {
            let from = head.size.saturating_sub(len);
            Look::Found(head, from)
        }
        HeadReading::NotUsed(why) => {
            if have < HEAD_ROOM && may_change(why) {
                Look::Waits(have)
            } else {
                Look::Unused(why)
            }
        }
    }
}
