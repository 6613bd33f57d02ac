//! Lists of ETags in a request (RFC 9110, sections 13.1.1 and 13.1.2).
ghost use Rattle.std.specs.Prelude.{◌≡◌, true};
ghost use Rattle.std.specs.List.{list_all, list_any};
ghost use Rattle.http_fields.specs.Conditional.{any_match, is_match, may_be_listed};
ghost use Rattle.http_fields.specs.Members.{members};

use crate::members::{Members, trim};
use crate::tag::{Tag, is_opaque_tag, is_weak_tag};

/// Returns whether a value of If-Match or If-None-Match names `tag`. It is `*`, or a list of entity tags of which one
/// matches: by strong comparison where `strong`, or else without regard to `W/`. A value that is neither matches
/// nothing.
pub fn any_match(value: &[u8], tag: &Tag, strong: bool) -> bool
    ensures { result ≡ any_match value.now tag.now strong }
{
    if trim(value) == b"*".as_slice() {
        return true;
    }
    are_tags(value) && names(value, tag.as_bytes(), strong)
}

/// Returns whether each member of a list is empty or an entity tag.
fn are_tags(value: &[u8]) -> bool
    ensures { result ≡ list_all may_be_listed (members true value.now) }
{
    Members::new(value, true).all(|member| may_be_listed(member))
}

fn may_be_listed(member: &[u8]) -> bool
    ensures { result ≡ may_be_listed member.now }
{
    member.is_empty() || is_opaque_tag(member) || is_weak_tag(member)
}

/// Returns whether a member of a list matches the ETag.
fn names(value: &[u8], tag: &[u8], strong: bool) -> bool
    ensures { result ≡ list_any (is_match strong tag.now) (members true value.now) }
{
    Members::new(value, true).any(|member| is_match(member, tag, strong))
}

fn is_match(member: &[u8], tag: &[u8], strong: bool) -> bool
    ensures { result ≡ is_match strong tag.now member.now }
{
    if !strong && is_weak_tag(member) {
        &member[2..] == tag
    } else {
        member == tag
    }
}
