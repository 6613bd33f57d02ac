//! How an answer is handed over to a client: whole, or in pieces.
ghost use Rattle.std.specs.Prelude.{ℕ, List, IfOk, OnErr};
ghost use Rattle.http_range.specs.Honest.{IsFront};
ghost use Rattle.cog_client.specs.Keeps.{DeliversKeeping, StopsDelivery};

use cog_client::{Client, Delivered};
use extents::Memory;

/// Says how answers are handed over.
#[derive(Clone, Copy)]
pub enum Handing {
    /// Whole, by one call.
    Whole,
    /// In pieces of this many bytes, but at least one each. The last piece is what is left.
    Pieces(usize),
}

/// Hands an answer, or a front of one, over to a client. While memory lasts, pieces meet the contract that `deliver` has for the whole
/// text. Fails where no memory is left, which may be before the last piece: then a front of it was delivered.
pub fn hand_over(client: &mut Client, text: &[u8], how: Handing) -> Result<Delivered, Memory>
    ensures ok { IfOk result (λ what. DeliversKeeping client.old text.now what client.new) }
    ensures err { OnErr result ((front : List ℕ) × IsFront front text.now × StopsDelivery client.old front client.new) }
{
    match how {
        Handing::Whole => client.deliver(text),
        Handing::Pieces(size) => deliver_pieces(client, text, size),
    }
}

/// Feeds an answer in pieces of `size` bytes, but at least one each. Fails where no memory is left.
fn deliver_pieces(client: &mut Client, text: &[u8], size: usize) -> Result<Delivered, Memory>
    ensures ok { IfOk result (λ what. DeliversKeeping client.old text.now what client.new) }
    ensures err { OnErr result ((front : List ℕ) × IsFront front text.now × StopsDelivery client.old front client.new) }
{
    client.begin();
    for piece in text.chunks(size.max(1)) {
        client.feed(piece)?;
    }
    client.end()
}
