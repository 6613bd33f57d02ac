//! One exchange: a request is sent, and the client takes what comes of its answer.
ghost use Rattle.std.specs.Prelude.{◌≡◌, ◌+◌, ◌<◌, ◌^◌, ℕ, Bool, true, IsTrue, List, OnErr, OnOk, Option};
ghost use Rattle.http_range.specs.Book.{Book};
ghost use Rattle.cog_client.specs.Transport.{AnswersOn, KeepsReading, OrLost, SpeaksOn, TakesOrLoses, UnlessTold};
ghost use Rattle.cog_fetch.specs.Takes.{StopsWithin, TakenOf};

use crate::taking::take_answer;
use cog_client::{Client, FetchError, Lost, Memory, Pieces, Transport};

/// Sends a request to a source, and gives the client what comes of its answer.
pub(crate) trait Exchange<S> {
    /// States that the source speaks for this book. Each piece of a file that is read of what it brings is of a
    /// publication in the book, by ETag, length and bytes.
    ghost speaks_for: { S → Book → Type 0 };

    /// States that this may come of this request: `Some` of the text of an answer, or `None` where the answer is lost.
    /// The Bool says whether a loss is reported by then.
    ghost came: { S → Bool → List ℕ → Option (List ℕ) → Type 0 };

    /// States whether an answer was lost so far, or may have been.
    ghost has_lost: { S → Bool };

    /// Counts the exchanges so far.
    ghost count: { S → ℕ };

    /// Sends a request, and gives the client what comes of its answer. At most `later` exchanges follow. Fails with
    /// `Memory` alone.
    fn exchange(
        client: &mut Client,
        source: &mut S,
        request: &[u8],
        later: u32,
    ) -> Result<(), FetchError>
        requires { count source.old + 1 < 2 ^ 64 }
        ensures keeps { KeepsReading (speaks_for source.old) (speaks_for source.new) client.old client.new }
        ensures takes { OnOk result (TakesOrLoses (came source.old (has_lost source.new)) request.now client.old client.new) }
        ensures stops { OnErr result (StopsWithin (came source.old true) request.now client.old client.new) }
        ensures told { IsTrue (has_lost source.old) → IsTrue (has_lost source.new) }
        ensures goes_on { (lost : Bool) → AnswersOn (came source.old lost) (came source.new lost) }
        ensures counted { count source.new ≡ count source.old + 1 };

    /// Does nothing: its contract is a law. What came where no loss is reported might have come where one is.
    fn more()
        ensures { (s : S) (told tells : Bool) → (IsTrue told → IsTrue tells) → AnswersOn (came s tells) (came s told) };
}

/// An answer comes whole, or cut, or is lost.
pub(crate) struct Whole;

impl<T: Transport> Exchange<T> for Whole {
    ghost speaks_for = { T.speaks_for };

    ghost came = { λ s lost. UnlessTold lost (T.answers s) };

    ghost has_lost = { T.has_lost };

    ghost count = { T.count };

    fn exchange(
        client: &mut Client,
        source: &mut T,
        request: &[u8],
        _later: u32,
    ) -> Result<(), FetchError> {
        match source.exchange(request) {
            Ok(answer) => {
                client.deliver(&answer)?;
                Ok(())
            }
            Err(Lost) => Ok(()),
        }
    }

    fn more() {}
}

/// The most requests that a source is given before their turn.
const MOST_EARLY: u32 = 8;

/// Gives the source the requests that the client is likely to make next, at most `later`. Fails with `Memory` alone.
/// Then the source gets none.
fn foresee<P: Pieces>(client: &Client, source: &mut P, later: u32) -> Result<(), Memory>
    ensures rest { P.rest source.new ≡ P.rest source.old }
    ensures kept { P.has_lost source.new ≡ P.has_lost source.old }
    ensures goes_on { AnswersOn (OrLost (P.answers source.old)) (OrLost (P.answers source.new)) }
    ensures speaks { SpeaksOn (P.speaks_for source.old) (P.speaks_for source.new) }
    ensures counted { P.count source.new ≡ P.count source.old }
{
    let early = client.early_requests(later.min(MOST_EARLY))?;
    source.foresee(&early);
    Ok(())
}

/// An answer comes in pieces, as it arrives. The source is given the requests that are likely to follow.
pub(crate) struct InPieces;

/// Sends a request to a source, and gives the client the pieces that come of its answer. At most `later` exchanges
/// follow. Fails with `Memory` alone.
fn exchange_in_pieces<P: Pieces>(
    client: &mut Client,
    source: &mut P,
    request: &[u8],
    later: u32,
) -> Result<(), FetchError>
    requires { P.count source.old + 1 < 2 ^ 64 }
    ensures keeps { KeepsReading (P.speaks_for source.old) (P.speaks_for source.new) client.old client.new }
    ensures takes { OnOk result (TakesOrLoses (TakenOf (P.speaks_for source.old) (P.answers source.old) (P.has_lost source.new))
        request.now client.old client.new) }
    ensures stops { OnErr result (StopsWithin (TakenOf (P.speaks_for source.old) (P.answers source.old) true)
        request.now client.old client.new) }
    ensures told { IsTrue (P.has_lost source.old) → IsTrue (P.has_lost source.new) }
    ensures goes_on { AnswersOn (OrLost (P.answers source.old)) (OrLost (P.answers source.new)) }
    ensures speaks { SpeaksOn (P.speaks_for source.old) (P.speaks_for source.new) }
    ensures counted { P.count source.new ≡ P.count source.old + 1 }
{
    match source.start(request) {
        Ok(()) => {
            let _ = foresee(client, source, later);
            Ok(take_answer(client, source)?)
        }
        Err(Lost) => Ok(()),
    }
}

impl<P: Pieces> Exchange<P> for InPieces {
    ghost speaks_for = { P.speaks_for };

    ghost came = { λ s lost. TakenOf (P.speaks_for s) (P.answers s) lost };

    ghost has_lost = { P.has_lost };

    ghost count = { P.count };

    fn exchange(
        client: &mut Client,
        source: &mut P,
        request: &[u8],
        later: u32,
    ) -> Result<(), FetchError> {
        source.exchange_begins(client, request);
        exchange_in_pieces(client, source, request, later)?;
        source.exchange_ends(client);
        Ok(())
    }

    fn more() {}
}
