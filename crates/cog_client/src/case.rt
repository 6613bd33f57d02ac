//! The case by which an answer is taken, which its head decides.
ghost use Rattle.std.specs.Prelude.{◌≡◌, ◌+◌, ◌<◌, ◌^◌, Some, if◌then◌else◌, max, min, nat_le};
ghost use Rattle.std.specs.Option.{option_map};
ghost use Rattle.cog_client.specs.declared.case.Case.TheVariants.{Restarted, Ignored as AnIgnored};
ghost use Rattle.cog_client.specs.declared.delivered.Ignored.TheVariants.{OtherRevision};
ghost use Rattle.http_range.specs.Announced.{announced};
ghost use Rattle.cog_client.specs.Client.{revision_in};
ghost use Rattle.cog_client.specs.Fed.{case_of_head, case_of_revision, told_at_end};

use crate::delivered::{Delivered, Ignored};
use crate::revision_reader::RevisionReader;
use http_range::{Head, Span};

/// What a piece of a file is to a client.
#[derive(Clone, Copy)]
pub enum Case {
    /// It is ignored, for this reason.
    Ignored(Ignored),
    /// It is of the first revision that the client reads.
    Adopted,
    /// It is a whole file of another revision.
    Restarted,
    /// It is of the client's revision, and the client waits for an answer.
    Accepted,
}

/// Returns the case of an answer of another revision. `whole`: it is the whole file, not a part of it.
fn case_of_other(whole: bool) -> Case
    ensures { result ≡ (if whole then Restarted else AnIgnored OtherRevision) }
{
    if whole {
        Case::Restarted
    } else {
        Case::Ignored(Ignored::OtherRevision)
    }
}

/// Returns whether no byte of a body is in `span`. The body begins at `first`, and `came` bytes of it came.
fn is_beside_at(span: Span, first: u64, came: u64) -> bool
    requires { first + came < 2 ^ 64 }
    ensures { result ≡ nat_le (min (first + came) (span.last + 1)) (max first span.first) }
{
    let from = first.max(span.first);
    first + came <= from || span.last < from
}

/// Returns the case of an answer by its head, where the client has a revision and waits for an answer.
fn case_of_revision(source: &RevisionReader, head: &Head) -> Case
    ensures { result ≡ case_of_revision (revision_in source.now) (announced head.now) }
{
    if source.tag != head.tag {
        return case_of_other(head.whole);
    }
    if source.complete != head.complete {
        return Case::Ignored(Ignored::OtherLength);
    }
    Case::Accepted
}

/// Returns the case of an answer by its head. Whether its body has a byte that is asked for is known only at its end.
pub fn case_of_head(source: &Option<RevisionReader>, asked: Option<Span>, head: &Head) -> Case
    ensures { result ≡ case_of_head (option_map revision_in source.now) asked (announced head.now) }
{
    if asked.is_none() {
        return Case::Ignored(Ignored::NotAsked);
    }
    match source {
        None => Case::Adopted,
        Some(source) => case_of_revision(source, head),
    }
}

/// Returns what an answer did, at its end. Its head had this `case`. Of its body, `came` bytes came, and `count` blocks
/// were stored. `span` was asked for.
pub fn told_at_end(case: Case, head: &Head, came: u64, count: u32, span: Span) -> Delivered
    requires { head.now.first + came < 2 ^ 64 }
    ensures { result ≡ told_at_end case (announced head.now) came count (Some span) }
{
    match case {
        Case::Ignored(why) => Delivered::Ignored(why),
        Case::Adopted => Delivered::Took(count),
        Case::Restarted => Delivered::Restarted,
        Case::Accepted => {
            if is_beside_at(span, head.first, came) {
                Delivered::Ignored(Ignored::NotAsked)
            } else {
                Delivered::Took(count)
            }
        }
    }
}
