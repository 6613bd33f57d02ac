//! A transport that loses and cuts answers.
ghost use Rattle.std.specs.Prelude.{◌≡◌, IfOk};
ghost use Rattle.http_range.specs.Honest.{IsFront};

use cog_client::{Lost, Transport};

/// Says what becomes of an answer.
#[derive(Clone, Copy, Debug, PartialEq, Eq)]
pub enum Fate {
    /// Nothing of it comes.
    Lost,
    /// Its first bytes come, at most this many.
    Cut(usize),
    /// All of it comes.
    Whole,
}

/// Returns what comes of an answer. Fails where nothing does.
fn arrived(mut answer: Vec<u8>, fate: Fate) -> Result<Vec<u8>, Lost>
    ensures { IfOk result (λ text. IsFront text.items answer.items) }
{
    match fate {
        Fate::Lost => Err(Lost),
        Fate::Cut(n) => {
            answer.truncate(n);
            Ok(answer)
        }
        Fate::Whole => Ok(answer),
    }
}

/// Loses and cuts the answers of another transport by a script. Each exchange uses up one fate, and after the last one all answers are
/// lost. It speaks for what the other transport speaks for, and counts its exchanges. It always says that an answer may have been lost.
#[derive(Drop)]
pub struct Scripted<'f, T> {
    inner: T,
    fates: &'f [Fate],
}

impl<'f, T> Scripted<'f, T> {
    ghost use Rattle.std.specs.Prelude.{◌≡◌};
    ghost use Rattle.transports.specs.Transports.{fates_of, inner_of};

    /// Makes one that has used up no fate.
    pub fn new(inner: T, fates: &'f [Fate]) -> Self
        ensures inner { inner_of result ≡ inner }
        ensures fates { fates_of result ≡ fates.now }
    {
        Scripted { inner, fates }
    }

    /// Returns the next fate, and uses it up.
    fn next_fate(&mut self) -> Fate
        ensures { inner_of self.new ≡ inner_of self.old }
    {
        match self.fates.split_first() {
            None => Fate::Lost,
            Some((fate, rest)) => {
                self.fates = rest;
                *fate
            }
        }
    }
}

impl<T: Transport> Transport for Scripted<'_, T> {
    ghost use Rattle.cog_client.specs.Transport.{OrLost};
    ghost use Rattle.transports.specs.Transports.{FrontsOf, inner_of};

    ghost speaks_for = { λ s. T.speaks_for (inner_of s) };

    ghost answers = { λ s. OrLost (FrontsOf (T.answers (inner_of s))) };

    ghost count = { λ s. T.count (inner_of s) };

    fn exchange(&mut self, request: &[u8]) -> Result<Vec<u8>, Lost> {
        let fate = self.next_fate();
        let answer = self.inner.exchange(request)?;
        arrived(answer, fate)
    }

    fn exchanges(&self) -> u64 {
        self.inner.exchanges()
    }
}
