//! How much of an answer can be of use to a client.
ghost use Rattle.std.specs.Prelude.{◌≡◌, option_copied};
ghost use Rattle.http_range.specs.Announced.{announced};
ghost use Rattle.client_dialogue.specs.Useful.{IsUseful, is_other, up_to};

use extents::Span;
use http_range::{Head, HeadReading, Tag, read_head};

/// How many bytes of a file are read where it isn't the one that was asked for.
const FRONT: u64 = 65_536;

/// Returns whether a head is that of another revision than the one with the ETag `tag`.
fn is_other(tag: Option<&Tag>, head: &Head) -> bool
    ensures { result ≡ is_other (option_copied tag.entry) (announced head.now) }
{
    match tag {
        Some(tag) => *tag != head.tag,
        None => false,
    }
}

/// Returns how many bytes of the body reach up to the last one of `span`.
fn up_to(span: Span, head: &Head) -> u64
    ensures { result ≡ up_to span (announced head.now) }
{
    span.last.saturating_add(1).saturating_sub(head.first)
}

/// Returns how many bytes of the body are read, for a client that asks for `asked` of the revision with the ETag `tag`. These are the bytes
/// up to the last one of `asked`, but at least a front. Of another revision a front is read. Nothing is read of a body whose head announces
/// no piece of a file.
pub fn useful_length(head: &[u8], asked: Option<Span>, tag: Option<&Tag>) -> u64
    ensures { IsUseful head.now asked (option_copied tag.entry) result }
{
    let HeadReading::Head(head) = read_head(head) else {
        return 0;
    };
    let Some(span) = asked else {
        return FRONT;
    };
    if is_other(tag, &head) {
        return FRONT;
    }
    up_to(span, &head).max(FRONT)
}
