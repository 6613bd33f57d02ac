//! The messages of a stream (RFC 9112, section 2.2).
ghost use Rattle.std.specs.Prelude.{◌≡◌, ◌≤◌, IfSome, IfNone, length, reverse, take};
ghost use Rattle.http_range.specs.Scan.{begins_line, has_empty_line, ends_line, without_return, ends_head, is_message};
ghost use Rattle.http_range.specs.Stream.{HasNoMessage, IsFirstMessage, IsUnfinished};

use http_fields::limits::MESSAGE_LIMIT;

/// Returns whether the text ends where a line begins.
fn begins_line(text: &[u8]) -> bool
    ensures { result ≡ begins_line (reverse text.now) }
{
    match text {
        [] => true,
        [.., last] => *last == b'\n',
    }
}

/// Returns whether the last line of the text has nothing so far, or CR alone.
fn has_empty_line(text: &[u8]) -> bool
    ensures { result ≡ has_empty_line (reverse text.now) }
{
    match text {
        [] => true,
        [before @ .., last] => *last == b'\n' || (*last == b'\r' && begins_line(before)),
    }
}

/// Returns whether the text ends with LF, and the line before that isn't empty.
fn ends_line(text: &[u8]) -> bool
    ensures { result ≡ ends_line (reverse text.now) }
{
    match text {
        [] => false,
        [before @ .., last] => *last == b'\n' && !has_empty_line(before),
    }
}

fn without_return(text: &[u8]) -> &[u8]
    ensures { reverse result.now ≡ without_return (reverse text.now) }
{
    match text {
        [] => text,
        [before @ .., last] => { if *last == b'\r' { before } else { text } }
    }
}

/// Returns whether the text ends with a line that isn't empty, and then an empty one.
fn ends_head(text: &[u8]) -> bool
    ensures { result ≡ ends_head (reverse text.now) }
{
    match text {
        [] => false,
        [before @ .., last] => *last == b'\n' && ends_line(without_return(before)),
    }
}

#[tactic(auto, unfolding(crate::specs::Scan::is_message))]
fn is_message(front: &[u8]) -> bool
    ensures { result ≡ is_message front.now }
{
    front.len() == MESSAGE_LIMIT || ends_head(front)
}

/// Returns the length of the first message of a stream, or `None` where more bytes have to come first. No front of at
/// most `scanned` bytes is a message. Only the bytes after these are gone through.
pub fn message_length(bytes: &[u8], scanned: usize) -> Option<usize>
    requires within { scanned ≤ length bytes.now }
    requires none { HasNoMessage bytes.now scanned }
    ensures message { IfSome result (λ n. (n ≤ length bytes.now) × IsFirstMessage bytes.now (take n bytes.now)) }
    ensures unfinished { IfNone result (IsUnfinished bytes.now) }
{
    for n in scanned..bytes.len() {
        if is_message(&bytes[..n + 1]) {
            return Some(n + 1);
        }
    }
    None
}
