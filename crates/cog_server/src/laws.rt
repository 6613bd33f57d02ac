//! Laws of the definitions, for the crates above. Each function does nothing: its contract is the law.
ghost use Rattle.std.specs.Prelude.{◌≤◌};
ghost use Rattle.http_fields.specs.declared.limits.TheConstants.{HEAD_LIMIT};
ghost use Rattle.cog_server.specs.declared.limits.TheConstants.{HEAD_ROOM};
ghost use Rattle.cog_server.specs.Limits.{HeadsHaveRoom, ServerLimitsAre};
ghost use Rattle.cog_server.specs.Serve.{FirstAnswersBegin};
ghost use Rattle.cog_server.specs.Run.{RunsAreAnswered, RunsAreServed};

use http_range::{law_answers_are_sent, law_answers_are_unique, law_messages_stay};

/// States the limits of names, hosts, files and dropped bytes in numbers. `law_limits_are` of `http_range` has those of
/// heads, tags and connections.
pub fn law_server_limits_are()
    ensures { ServerLimitsAre }
{}

/// States that the answers to the first messages of a stream begin the answers to all of them.
pub fn law_first_answers_begin()
    ensures { FirstAnswersBegin }
{
    law_answers_are_unique();
    law_messages_stay();
}

/// States that an answer from a lawful catalogue has at most `HEAD_ROOM` bytes besides its body, where the origin that it may name has at
/// most `ORIGIN_LIMIT`. A client reads heads of that size.
pub fn law_heads_have_room()
    ensures room { HeadsHaveRoom }
    ensures read { HEAD_ROOM ≤ HEAD_LIMIT }
{
    law_answers_are_sent();
}

/// States that a connection hands out the answers to its own messages, each by the catalogue of its moment. Bytes may
/// come and be written in pieces of any size, and files may be published meanwhile.
pub fn law_runs_are_answered()
    ensures answered { RunsAreAnswered }
    ensures served { RunsAreServed }
{
    law_messages_stay();
}
