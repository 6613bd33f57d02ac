//! What is done with a client, and what is expected of it.
use crate::answers::Answer;
use cog_client::{Current, Query};
use cog_reader_support::Want;

/// The first and the last position.
pub type Positions = (u64, u64);

/// The positions that a client without a revision asks for.
pub const FIRST: Positions = (0, 65535);

/// What the answer to a check says, or the number under which it says nothing.
#[derive(Clone, Copy, Debug, PartialEq, Eq)]
pub enum Said {
    Same,
    Other,
    Unknown(u8),
}

impl From<Current> for Said {
    fn from(current: Current) -> Said {
        match current {
            Current::Same => Said::Same,
            Current::Other => Said::Other,
            Current::Unknown(why) => Said::Unknown(why.number()),
        }
    }
}

/// Answers to a check, and what each of them says.
pub type Kind<'a> = (&'a [&'a str], Said);

/// What is done with a client, and what is expected of it.
#[derive(Clone, Copy)]
pub enum Step<'a> {
    /// A window of level 0 is asked: x, y, w and h.
    Opens(u32, u32, u32, u32),
    Open(Query),
    Forgets,
    /// The next request is for these positions of the revision with this tag.
    Asks(Positions, Option<&'a str>),
    AsksNothing,
    /// An answer is taken, with this number of blocks.
    Takes(Answer<'a>, u32),
    /// An answer is taken, with this number of blocks. What is asked and the revision stay the same, and no report stands.
    TakesMore(Answer<'a>, u32),
    /// An answer isn't ignored.
    Uses(Answer<'a>),
    /// An answer is ignored under this number, and changes nothing that callers see.
    Ignores(Answer<'a>, u8),
    /// Each of these texts is ignored under its number.
    Refuses(&'a [(&'a str, u8)]),
    /// An answer makes the client begin again.
    Restarts(Answer<'a>),
    /// These positions are asked, and this is the revision's tag.
    Stands(Option<Positions>, Option<&'a str>),
    /// No report stands.
    IsSilent,
    /// Requests are answered with parts of a publication until there is none. The first number is that of the publication, the second
    /// counts the requests.
    Reads(usize, usize),
    /// This is the report, under this tag, of the query that was opened last, and nothing is asked.
    Reports(&'a str, Want<'a>),
    /// A copy of the report says the same.
    Copies,
    /// This is the check, or there is none.
    Checks(Option<&'a str>),
    /// Answers to a check say what is given for their kind.
    Hears(&'a [Kind<'a>]),
}
