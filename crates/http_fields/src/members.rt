//! Lists in the value of a field (RFC 9110, section 5.6.1).
ghost use Rattle.std.specs.Prelude.{◌≡◌, false, length, reverse};
ghost use Rattle.std.specs.Iterator.{YieldsFirstRef, item_count};
ghost use Rattle.httparse.specs.Grammar.{skip_ows, trim_ows};
ghost use Rattle.http_fields.specs.Members.{members, has_member};
ghost use Rattle.http_fields.specs.MemberWalk.{first_part, members_left};

use crate::bytes::after;
use httparse::is_space_or_tab;

/// The members of a list without spaces and tabs around them. Empty members count, too.
#[derive(Drop)]
pub(crate) struct Members<'b> {
    rest: Option<&'b [u8]>,
    quotes: bool,
}

impl<'b> Members<'b> {
    /// Returns the members of the list in `value`. With `quotes`, a comma between quotes belongs to its member.
    pub(crate) fn new(value: &'b [u8], quotes: bool) -> Members<'b>
        ensures { members_left result ≡ members quotes value.entry.now }
    {
        Members {
            rest: Some(value),
            quotes,
        }
    }
}

impl<'b> Iterator for Members<'b> {
    type Item = &'b [u8];

    ghost next_gives = { YieldsFirstRef members_left };

    ghost remaining = { item_count members_left };

    fn next(&mut self) -> Option<&'b [u8]> {
        let list = self.rest?;
        let end = part_end(list, self.quotes);
        if end < list.len() {
            self.rest = Some(after(list, end + 1));
            Some(trim(&list[..end]))
        } else {
            self.rest = None;
            Some(trim(list))
        }
    }
}

/// Returns where the first part ends: at a comma, or with the list.
fn part_end(list: &[u8], quotes: bool) -> usize
    ensures { result ≡ length (first_part quotes list.now) }
{
    let mut quoted = false;
    for (i, b) in list.iter().enumerate() {
        if *b == b',' && !quoted {
            return i;
        }
        if quotes && *b == b'"' {
            quoted = !quoted;
        }
    }
    list.len()
}

fn trim_start(mut text: &[u8]) -> &[u8]
    ensures { result.now ≡ skip_ows text.now }
{
    while let [first, rest @ ..] = text
        && is_space_or_tab(*first)
    {
        text = rest;
    }
    text
}

fn trim_end(mut text: &[u8]) -> &[u8]
    ensures { result.now ≡ reverse (skip_ows (reverse text.now)) }
{
    while let [rest @ .., last] = text
        && is_space_or_tab(*last)
    {
        text = rest;
    }
    text
}

/// Returns the text without spaces and tabs at its ends.
#[tactic(auto, unfolding(httparse::specs::Grammar::trim_ows))]
pub(crate) fn trim(text: &[u8]) -> &[u8]
    ensures { result.now ≡ trim_ows text.now }
{
    trim_end(trim_start(text))
}

/// Returns whether a member of the list is `word`. Case is ignored.
pub(crate) fn has_member(value: &[u8], word: &[u8]) -> bool
    ensures { result ≡ has_member word.now value.now }
{
    Members::new(value, false).any(|member| member.eq_ignore_ascii_case(word))
}
