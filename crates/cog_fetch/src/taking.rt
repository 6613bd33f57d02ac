//! How a client takes an answer, piece by piece as it arrives.
ghost use Rattle.std.specs.Prelude.{◌≡◌, ◌<◌, ◌≤◌, ℕ, false, IfOk, IsTrue, List, OnErr, OnOk, length};
ghost use Rattle.cog_client.specs.declared.delivered.Delivered.{Delivered};
ghost use Rattle.cog_client.specs.Keeps.{DeliversKeeping, StopsDelivery};
ghost use Rattle.cog_client.specs.Transport.{AnswersOn, OrLost, SpeaksOn};
ghost use Rattle.cog_fetch.specs.Takes.{IsNextOf, IsTakenOf, Stops, TakesAll, TakesAnswer, TakesPiece};

use cog_client::{Client, Lost, MAX_BLOCKS, Pieces};
use extents::{BLOCK_SIZE, Memory};
use http_fields::limits::HEAD_LIMIT;

/// The most bytes of an answer that are taken, 1,069,056. These are a head and the blocks of one request.
pub const ANSWER_LIMIT: usize = HEAD_LIMIT + MAX_BLOCKS as usize * BLOCK_SIZE as usize;

/// The most bytes of a piece.
pub const PIECE_ROOM: usize = 16_384;

/// Takes the next piece, of at most as many bytes as `room` has. Returns how many it has, 0 at the end, or where the
/// rest is lost. Fails with `Memory` alone.
fn take_piece<P: Pieces>(
    client: &mut Client,
    pieces: &mut P,
    room: &mut [u8],
) -> Result<usize, Memory>
    requires { 0 < length room.old }
    ensures few { IfOk result (λ n. n ≤ length room.old) }
    ensures ok { IfOk result (λ n. TakesPiece (P.speaks_for pieces.old) (P.rest pieces.old) n (P.has_lost pieces.new)
        (P.rest pieces.new) client.old client.new) }
    ensures err { OnErr result (Stops (P.speaks_for pieces.old) (P.rest pieces.old) client.old client.new) }
    ensures told { IsTrue (P.has_lost pieces.old) → IsTrue (P.has_lost pieces.new) }
    ensures goes_on { AnswersOn (OrLost (P.answers pieces.old)) (OrLost (P.answers pieces.new)) }
    ensures speaks { SpeaksOn (P.speaks_for pieces.old) (P.speaks_for pieces.new) }
    ensures counted { P.count pieces.new ≡ P.count pieces.old }
{
    match pieces.next(room) {
        Err(Lost) => Ok(0),
        Ok(count) => {
            client.feed(&room[..count])?;
            Ok(count)
        }
    }
}

/// Takes pieces up to the end of the answer, to a loss, or to `ANSWER_LIMIT` bytes. Fails with `Memory` alone.
fn take_pieces<P: Pieces>(client: &mut Client, pieces: &mut P) -> Result<(), Memory>
    ensures ok { OnOk result (TakesAll (P.speaks_for pieces.old) (P.rest pieces.old) (P.has_lost pieces.new) client.old client.new) }
    ensures err { OnErr result (Stops (P.speaks_for pieces.old) (P.rest pieces.old) client.old client.new) }
    ensures told { IsTrue (P.has_lost pieces.old) → IsTrue (P.has_lost pieces.new) }
    ensures goes_on { AnswersOn (OrLost (P.answers pieces.old)) (OrLost (P.answers pieces.new)) }
    ensures speaks { SpeaksOn (P.speaks_for pieces.old) (P.speaks_for pieces.new) }
    ensures counted { P.count pieces.new ≡ P.count pieces.old }
{
    let mut room = [0u8; PIECE_ROOM];
    let mut left = ANSWER_LIMIT;
    while left > 0 {
        let most = left.min(PIECE_ROOM);
        let count = take_piece(client, pieces, &mut room[..most])?;
        if count == 0 {
            return Ok(());
        }
        left -= count;
    }
    Ok(())
}

/// Takes what comes of the answer to the last request, and goes on with the client. Fails with `Memory` alone.
pub fn take_answer<P: Pieces>(client: &mut Client, pieces: &mut P) -> Result<(), Memory>
    ensures takes { TakesAnswer (P.speaks_for pieces.old) (P.rest pieces.old) client.old client.new }
    ensures ok { OnOk result ((bytes : List ℕ) × IsTakenOf (P.speaks_for pieces.old) (P.has_lost pieces.new) (P.rest pieces.old) bytes
        × (what : Delivered) × DeliversKeeping client.old bytes what client.new) }
    ensures err { OnErr result ((bytes : List ℕ) × IsNextOf (P.speaks_for pieces.old) (P.rest pieces.old) bytes
        × StopsDelivery client.old bytes client.new) }
    ensures told { IsTrue (P.has_lost pieces.old) → IsTrue (P.has_lost pieces.new) }
    ensures goes_on { AnswersOn (OrLost (P.answers pieces.old)) (OrLost (P.answers pieces.new)) }
    ensures speaks { SpeaksOn (P.speaks_for pieces.old) (P.speaks_for pieces.new) }
    ensures counted { P.count pieces.new ≡ P.count pieces.old }
{
    client.begin();
    take_pieces(client, pieces)?;
    client.end()?;
    Ok(())
}
