//! Texts that are copied to a room: memory of the caller.
ghost use Rattle.delgunsai_c.specs.Laid.{Lays};
ghost use Rattle.delgunsai_c.specs.Moving.{LaysFront};

/// Copies a text to the front of `room`, or nothing where the text is longer than the room. Returns the text's length in bytes either way.
pub fn lay(text: &[u8], room: &mut [u8]) -> i64
    ensures { Lays text.now room.old room.new result }
{
    if text.len() <= room.len() {
        room[..text.len()].copy_from_slice(text);
    }
    text.len() as i64
}

/// Copies as many of a text's first bytes to `room` as it holds. Returns the length of the whole text in bytes.
pub fn lay_front(text: &[u8], room: &mut [u8]) -> i64
    ensures { LaysFront text.now room.old room.new result }
{
    let count = text.len().min(room.len());
    room[..count].copy_from_slice(&text[..count]);
    text.len() as i64
}
