//! Bytes that stand in small pieces.
ghost use Rattle.std.specs.Prelude.{◌-◌, length, min};

use cog_reader::Bytes;

/// The number of bytes in one piece.
const PIECE: usize = 7;

/// Bytes that are lent seven at a time.
#[derive(Clone, Copy)]
pub struct Pieces<'a>(pub &'a [u8]);

impl Bytes for Pieces<'_> {
    ghost bytes = { λ p. p.0.now };

    ghost piece_len = { λ p at. min (length p.0.now - at) 7 };

    ghost room_needed = { λ p. length p.0.now };

    fn len(&self) -> usize {
        self.0.len()
    }

    fn copy_to(&self, at: usize, out: &mut [u8]) {
        out.copy_from_slice(&self.0[at..at + out.len()]);
    }

    fn piece_at(&self, at: usize) -> &[u8] {
        let rest = &self.0[at..];
        &rest[..rest.len().min(PIECE)]
    }

    fn part_at<'a>(&'a self, at: usize, len: usize, room: &'a mut [u8]) -> &'a [u8] {
        let out = &mut room[..len];
        self.copy_to(at, out);
        out
    }
}
