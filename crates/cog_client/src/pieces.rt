//! The trait of what carries a client's requests, and brings the answers in pieces, as they arrive.
ghost use Rattle.std.specs.Prelude.{◌≡◌, ◌+◌, ◌<◌, ◌≤◌, ◌^◌, ℕ, Bool, true, IsTrue, List, [], IfOk, OnErr, OnOk, length, ⊤};
ghost use Rattle.http_range.specs.Book.{Book};
ghost use Rattle.cog_client.specs.Pieces.{BringsOf};
ghost use Rattle.cog_client.specs.Transport.{AnswersOn, IsTrueToAll, OrLost, SpeaksOn};

use crate::client::Client;
use crate::transport::Lost;

/// Carries requests to a server, and brings its answers in pieces, whole or cut, or none.
pub trait Pieces {
    /// States that it speaks for this book. Each piece of a file that is read of what it brings is of a publication in
    /// the book, by ETag, length and bytes.
    ghost speaks_for: { Self → Book → Type 0 };

    /// States that this text may come of the answer to this request. An implementation that leaves this out states
    /// nothing.
    ghost answers: { Self → List ℕ → List ℕ → Type 0 } = { λ _ _ _. ⊤ };

    /// States that an answer, or the rest of one, was lost so far, or may have been. An implementation that leaves this
    /// out states nothing.
    ghost has_lost: { Self → Bool } = { λ _. true };

    /// Counts the requests so far.
    ghost count: { Self → ℕ };

    /// Names what is still to come of the answer to the last request.
    ghost rest: { Self → List ℕ };

    /// Sends a request. What was still to come of the answer before is dropped. Fails with `Lost`, and then nothing is
    /// to come.
    fn start(&mut self, request: &[u8]) -> Result<(), Lost>
        requires { count self.old + 1 < 2 ^ 64 }
        ensures answered { OnOk result (answers self.old request.now (rest self.new)) }
        ensures dropped { OnErr result (rest self.new ≡ []) }
        ensures told { OnErr result (IsTrue (has_lost self.new)) }
        ensures kept { OnOk result (has_lost self.new ≡ has_lost self.old) }
        ensures goes_on { AnswersOn (OrLost (answers self.old)) (OrLost (answers self.new)) }
        ensures shows { OnOk result (IsTrueToAll (speaks_for self.old) (rest self.new)) }
        ensures speaks { SpeaksOn (speaks_for self.old) (speaks_for self.new) }
        ensures counted { count self.new ≡ count self.old + 1 };

    /// Writes the next bytes of the answer to the front of `out`, which isn't empty. Returns how many there are, 0 at
    /// the end. Of these bytes the contract speaks only where the source speaks for a book. Fails with `Lost` where the
    /// rest of the answer is lost, or may be.
    fn next(&mut self, out: &mut [u8]) -> Result<usize, Lost>
        requires { 0 < length out.old }
        ensures fits { IfOk result (λ n. n ≤ length out.new) }
        ensures brings { IfOk result (λ n. BringsOf (speaks_for self.old) (rest self.old) out.new n (rest self.new)) }
        ensures told { OnErr result (IsTrue (has_lost self.new)) }
        ensures kept { OnOk result (has_lost self.new ≡ has_lost self.old) }
        ensures goes_on { AnswersOn (OrLost (answers self.old)) (OrLost (answers self.new)) }
        ensures speaks { SpeaksOn (speaks_for self.old) (speaks_for self.new) }
        ensures counted { count self.new ≡ count self.old };

    /// Notes that an exchange begins, in which `client` asks `request`.
    fn exchange_begins(&mut self, _client: &Client, _request: &[u8])
        ensures rest { rest self.new ≡ rest self.old }
        ensures kept { has_lost self.new ≡ has_lost self.old }
        ensures goes_on { AnswersOn (OrLost (answers self.old)) (OrLost (answers self.new)) }
        ensures speaks { SpeaksOn (speaks_for self.old) (speaks_for self.new) }
        ensures counted { count self.new ≡ count self.old }
    {}

    /// Notes that the exchange is over, and that `client` has taken what came of it.
    fn exchange_ends(&mut self, _client: &Client)
        ensures rest { rest self.new ≡ rest self.old }
        ensures kept { has_lost self.new ≡ has_lost self.old }
        ensures goes_on { AnswersOn (OrLost (answers self.old)) (OrLost (answers self.new)) }
        ensures speaks { SpeaksOn (speaks_for self.old) (speaks_for self.new) }
        ensures counted { count self.new ≡ count self.old }
    {}

    /// Takes the requests that are likely to be started next, the next one first. An implementation may send them
    /// early. Each of them is still started in its turn, or another one is.
    fn foresee(&mut self, _requests: &[Vec<u8>])
        ensures rest { rest self.new ≡ rest self.old }
        ensures kept { has_lost self.new ≡ has_lost self.old }
        ensures goes_on { AnswersOn (OrLost (answers self.old)) (OrLost (answers self.new)) }
        ensures speaks { SpeaksOn (speaks_for self.old) (speaks_for self.new) }
        ensures counted { count self.new ≡ count self.old }
    {}

    /// Returns how many requests there were, with those that brought nothing.
    fn starts(&self) -> u64
        ensures { result ≡ count self.now };
}
