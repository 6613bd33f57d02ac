//! The trait of what carries a client's requests, and brings the answers.
ghost use Rattle.std.specs.Prelude.{◌≡◌, ◌+◌, ◌<◌, ◌^◌, ℕ, Bool, true, IfOk, IsTrue, List, OnErr, OnOk, Option, Some, None};
ghost use Rattle.http_range.specs.Book.{Book};
ghost use Rattle.cog_client.specs.Transport.{AnswersOn, Anything, IsTrueToAll, SpeaksOn};

use thiserror::Error;

/// No answer came.
#[derive(Clone, Copy, Debug, Error, PartialEq, Eq)]
#[error("no answer came")]
pub struct Lost;

/// Carries requests to a server, and brings its answers, whole or cut, or none.
pub trait Transport {
    /// States that it speaks for this book. Each piece of a file that is read of what it brings is of a publication in
    /// the book, by ETag, length and bytes.
    ghost speaks_for: { Self → Book → Type 0 };

    /// States that this may come of this request: `Some` of the text of an answer, or `None` where the answer is lost.
    /// An implementation that leaves this out states nothing.
    ghost answers: { Self → List ℕ → Option (List ℕ) → Type 0 } = { λ _. Anything };

    /// States that an answer was lost so far, or may have been. An implementation that leaves this out states nothing.
    ghost has_lost: { Self → Bool } = { λ _. true };

    /// Counts the exchanges so far.
    ghost count: { Self → ℕ };

    /// Makes one exchange: sends a request, and returns what came of its answer. Fails with `Lost` where none came.
    fn exchange(&mut self, request: &[u8]) -> Result<Vec<u8>, Lost>
        requires { count self.old + 1 < 2 ^ 64 }
        ensures answered { IfOk result (λ text. answers self.old request.now (Some text.items)) }
        ensures lost { OnErr result (answers self.old request.now None) }
        ensures told { OnErr result (IsTrue (has_lost self.new)) }
        ensures kept { OnOk result (has_lost self.new ≡ has_lost self.old) }
        ensures goes_on { AnswersOn (answers self.old) (answers self.new) }
        ensures shows { IfOk result (λ text. IsTrueToAll (speaks_for self.old) text.items) }
        ensures speaks { SpeaksOn (speaks_for self.old) (speaks_for self.new) }
        ensures counted { count self.new ≡ count self.old + 1 };

    /// Returns how many exchanges there were, with those that brought nothing.
    fn exchanges(&self) -> u64
        ensures { result ≡ count self.now };
}
