//! ETags (RFC 9110, section 8.8.3).
ghost use Rattle.std.specs.Prelude.{◌≡◌, ◌==◌, ℕ, List, IsTrue, IfSome, IfNone, false};
ghost use Rattle.std.specs.List.{list_all};
ghost use Rattle.http_fields.specs.Tag.{is_tag_byte, is_opaque_tag, is_weak_tag, is_kept_tag};

use crate::bytes::past;
use crate::limits::TAG_LIMIT;
use arrayvec::ArrayVec;
use std::marker::Model;

/// A strong ETag of at most 64 bytes, with its quotes. Contracts see it as the list of its bytes.
#[derive(Debug, Drop)]
pub struct Tag {
    text: ArrayVec<u8, TAG_LIMIT>,
}

impl Model for Tag {
    ghost Value = { List ℕ };

    ghost view = { λ t. t.text.items };

    ghost invariant = { λ t. IsTrue (is_kept_tag t.text.items) };

    ghost inverse = { λ bytes. record { text = record { items = bytes } } };
}

fn is_tag_byte(b: u8) -> bool
    ensures { result ≡ is_tag_byte b }
{
    b == b'!' || (b >= b'#' && b <= b'~') || b >= 128
}

fn are_tag_bytes(text: &[u8]) -> bool
    ensures { result ≡ list_all is_tag_byte text.now }
{
    text.iter().all(|b| is_tag_byte(*b))
}

/// Returns whether the text is an entity tag without `W/`.
pub fn is_opaque_tag(text: &[u8]) -> bool
    ensures { result ≡ is_opaque_tag text.now }
{
    let n = text.len();
    if n < 2 {
        return false;
    }
    if text[0] != b'"' {
        return false;
    }
    if text[n - 1] != b'"' {
        return false;
    }
    are_tag_bytes(&text[1..n - 1])
}

/// Returns whether the text is an entity tag with `W/`.
pub fn is_weak_tag(text: &[u8]) -> bool
    ensures { result ≡ is_weak_tag text.now }
{
    text.starts_with(b"W/") && is_opaque_tag(past(text, 2))
}

// Strong comparison: neither ETag is weak, and the texts are equal byte for byte.
impl PartialEq for Tag {
    ghost use Rattle.std.specs.Str.{bytes_eq};
    ghost use Rattle.std.proofs.Common.{rules};
    ghost use Rattle.std.specs.Cmp.Rules.{comparing};

    ghost eq = { bytes_eq };

    ghost laws = { Prim.search (comparing, rules) };

    fn eq(&self, other: &Tag) -> bool {
        self.as_bytes() == other.as_bytes()
    }
}

impl Eq for Tag {
    ghost use Rattle.std.proofs.Common.{rules};
    ghost use Rattle.std.specs.Cmp.Rules.{comparing};

    ghost laws = { Prim.search (comparing, rules) };
}

impl Tag {
    /// Makes the ETag with this text. Returns `None` where the text is a weak entity tag, or none, or longer than 64
    /// bytes (RFC 9110, section 8.8.3).
    ///
    /// ```
    /// let tag = Tag::new(b"\"1-1\"");
    /// ```
    pub fn new(text: &[u8]) -> Option<Tag>
        ensures some { IfSome result (λ t. (t ≡ text.now) × IsTrue (is_kept_tag text.now)) }
        ensures none { IfNone result (is_kept_tag text.now ≡ false) }
    {
        if !is_opaque_tag(text) || text.len() > TAG_LIMIT {
            return None;
        }
        let mut kept = ArrayVec::new();
        let added = kept.try_extend_from_slice(text);
        match added {
            Ok(()) => Some(Tag { text: kept }),
            Err(_) => None,
        }
    }

    /// Returns the text with its quotes.
    pub fn as_bytes(&self) -> &[u8]
        ensures text { result.now ≡ self.now }
        ensures kept { IsTrue (is_kept_tag result.now) }
    {
        self.text.as_slice()
    }

    /// Returns an equal ETag. It allocates nothing.
    pub fn copy(&self) -> Tag
        ensures same { result ≡ self.now }
        ensures kept { IsTrue (is_kept_tag result) }
    {
        Tag::new(self.as_bytes()).unwrap()
    }
}
