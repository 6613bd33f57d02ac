//! What an answer did to a client.
use http_range::Why;

/// What a delivered answer did to a client.
#[derive(Clone, Copy, Debug, PartialEq, Eq)]
pub enum Delivered {
    /// It was a piece of the client's revision. The value is the number of its blocks that were stored.
    Took(u32),
    /// It was a whole file of another revision, which the client reads from now on.
    Restarted,
    /// It changed nothing. But where its rest was dropped after `Memory`, its revision may be read, and blocks of it
    /// may be stored.
    Ignored(Ignored),
}

/// Why an answer was ignored.
#[derive(Clone, Copy, Debug, PartialEq, Eq)]
pub enum Ignored {
    /// It can't be used.
    NotUsed(Why),
    /// It is a part of another revision than the client's.
    OtherRevision,
    /// It has the client's ETag, but another length of the file.
    OtherLength,
    /// Nothing is asked, or none of its bytes is.
    NotAsked,
}

impl Ignored {
    ghost use Rattle.std.specs.Prelude.{◌≡◌};
    ghost use Rattle.cog_client.specs.Take.{number_of_ignored};

    /// Returns the number of this reason: that of `Why`, or 10 to 12.
    pub fn number(self) -> u8
        ensures { result ≡ number_of_ignored self }
    {
        match self {
            Ignored::NotUsed(why) => why.number(),
            Ignored::OtherRevision => 10,
            Ignored::OtherLength => 11,
            Ignored::NotAsked => 12,
        }
    }
}

/// What the answer to a check says of the client's revision.
#[derive(Clone, Copy, Debug, PartialEq, Eq)]
pub enum Current {
    /// The server has the file under the client's ETag.
    Same,
    /// The server has another revision of it.
    Other,
    /// The answer says nothing, for this reason.
    Unknown(Unknown),
}

/// Why the answer to a check says nothing.
#[derive(Clone, Copy, Debug, PartialEq, Eq)]
pub enum Unknown {
    /// The answer can't be used.
    NotUsed(Why),
    /// The client has no revision.
    NoRevision,
}

impl Unknown {
    ghost use Rattle.std.specs.Prelude.{◌≡◌};
    ghost use Rattle.cog_client.specs.Check.{number_of_unknown};

    /// Returns the number of this reason: that of `Why`, or 12.
    pub fn number(self) -> u8
        ensures { result ≡ number_of_unknown self }
    {
        match self {
            Unknown::NotUsed(why) => why.number(),
            Unknown::NoRevision => 12,
        }
    }
}
