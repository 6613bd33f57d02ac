//! A server in memory whose file is replaced.
use crate::in_memory::answer_about;
use cog_client::{Lost, Transport};
use cog_server::Server;

/// Answers requests for the file of one name from one server, and after some exchanges from another. So it is where the file is replaced,
/// or the server is started anew. It speaks for each book that has the files of both under that name, and counts its exchanges.
#[derive(Drop)]
pub struct Replaced<'s> {
    before: &'s Server,
    after: &'s Server,
    name: &'s [u8],
    left: u64,
    exchanges: u64,
    has_lost: bool,
}

impl<'s> Replaced<'s> {
    ghost use Rattle.std.specs.Prelude.{◌≡◌, false, [], ◌∷◌};
    ghost use Rattle.transports.specs.Transports.{count_of, left_of, lost_of, name_of, states_of};

    /// Makes a transport without exchanges. The first `left` exchanges are with the server `before`, all others with the server `after`.
    pub fn new(before: &'s Server, after: &'s Server, name: &'s [u8], left: u64) -> Self
        ensures servers { states_of result ≡ before.now ∷ after.now ∷ [] }
        ensures name { name_of result ≡ name.now }
        ensures left { left_of result ≡ left }
        ensures exchanges { count_of result ≡ 0 }
        ensures lost { lost_of result ≡ false }
    {
        Replaced {
            before,
            after,
            name,
            left,
            exchanges: 0,
            has_lost: false,
        }
    }
}

impl Transport for Replaced<'_> {
    ghost use Rattle.std.specs.Prelude.{◌≡◌, ◌+◌, ◌-◌, ◌<◌, ◌^◌, IfOk, IsTrue, OnErr, OnOk, None};
    ghost use Rattle.cog_client.specs.Transport.{AnswersOn, IsTrueToAll, OrLost, SpeaksOn};
    ghost use Rattle.transports.specs.InMemory.{IsAnswerAbout};
    ghost use Rattle.transports.specs.Transports.{AnswersOfEither, StandInBoth, count_of, left_of, lost_of, name_of, state_in_turn, states_of};

    ghost speaks_for = { StandInBoth };

    ghost answers = { λ s. OrLost (AnswersOfEither s) };

    ghost has_lost = { lost_of };

    ghost count = { count_of };

    fn exchange(&mut self, request: &[u8]) -> Result<Vec<u8>, Lost>
        requires { count_of self.old + 1 < 2 ^ 64 }

        // What comes is the answer to the request, by the server whose turn it is.
        ensures in_turn { IfOk result (λ text.
            IsAnswerAbout (state_in_turn self.old).catalogue (name_of self.old) request.now text.items) }
        ensures servers { states_of self.new ≡ states_of self.old }
        ensures name { name_of self.new ≡ name_of self.old }
        ensures left { left_of self.new ≡ left_of self.old - 1 }

        // It keeps the trait's law. An answer may be lost, too, and `has_lost` says so.
        ensures answered { IfOk result (λ text. AnswersOfEither self.old request.now text.items) }
        ensures lost { OnErr result (OrLost (AnswersOfEither self.old) request.now None) }
        ensures told { OnErr result (IsTrue (lost_of self.new)) }
        ensures kept { OnOk result (lost_of self.new ≡ lost_of self.old) }
        ensures goes_on { AnswersOn (OrLost (AnswersOfEither self.old)) (OrLost (AnswersOfEither self.new)) }
        ensures shows { IfOk result (λ text. IsTrueToAll (StandInBoth self.old) text.items) }
        ensures speaks { SpeaksOn (StandInBoth self.old) (StandInBoth self.new) }
        ensures counted { count_of self.new ≡ count_of self.old + 1 }
    {
        self.exchanges += 1;
        let server = if self.left == 0 {
            self.after
        } else {
            self.before
        };
        self.left = self.left.saturating_sub(1);
        let answer = answer_about(server, self.name, request);
        self.has_lost |= answer.is_err();
        answer
    }

    fn exchanges(&self) -> u64 {
        self.exchanges
    }
}
