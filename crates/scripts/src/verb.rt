//! The first words of lines.
ghost use Rattle.std.specs.Prelude.{◌≡◌, ◌≢◌, MatchOption};
ghost use Rattle.scripts.specs.Verb.{word_of};

/// Says what the first word of a line is that names no file.
#[derive(Clone, Copy)]
pub enum Verb {
    Epoch,
    Client,
    Open,
    Forget,
    Ask,
    AskFrom,
    Deliver,
    Exchange,
    Check,
}

/// Returns the verb that a word is, or `None` for any other word.
pub fn verb_of(word: &[u8]) -> Option<Verb>
    ensures { MatchOption result ((verb : Verb) → word.now ≢ word_of verb) (λ verb. word.now ≡ word_of verb) }
{
    match word {
        b"epoch" => Some(Verb::Epoch),
        b"client" => Some(Verb::Client),
        b"open" => Some(Verb::Open),
        b"forget" => Some(Verb::Forget),
        b"ask" => Some(Verb::Ask),
        b"askfrom" => Some(Verb::AskFrom),
        b"deliver" => Some(Verb::Deliver),
        b"exchange" => Some(Verb::Exchange),
        b"check" => Some(Verb::Check),
        _ => None,
    }
}
