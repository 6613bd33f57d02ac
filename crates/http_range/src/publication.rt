//! The limits and the ETags of publications.
ghost use Rattle.std.specs.Prelude.{◌≡◌, ◌≤◌, ◌+◌, ◌++◌, length};
ghost use Rattle.arrayvec.specs.ArrayVec.{array_vec_len};
ghost use Rattle.http_range.specs.Book.{publication_tag};

use arrayvec::ArrayVec;
use http_fields::laws::law_parts_are_read;
use http_fields::limits::TAG_LIMIT;
use http_fields::tag::Tag;
use itoa::Buffer;

/// The most bytes of a published file: 64 MiB.
pub const FILE_LIMIT: usize = 67_108_864;

/// The most names under which a server has files.
pub const NAMES_LIMIT: usize = 64;

/// Returns the ETag `"E-N"` of publication `number` of an epoch. It allocates nothing.
pub fn publication_tag(epoch: u32, number: u32) -> Tag
    ensures { result ≡ publication_tag epoch number }
{
    law_parts_are_read();
    let text = publication_text(epoch, number);
    Tag::new(text.as_slice()).unwrap()
}

#[tactic(auto, unfolding(crate::specs::Book::publication_tag))]
fn publication_text(epoch: u32, number: u32) -> ArrayVec<u8, TAG_LIMIT>
    ensures { result.items ≡ publication_tag epoch number }
{
    let mut text = ArrayVec::new();
    let mut buffer = Buffer::new();
    append(&mut text, b"\"");
    append(&mut text, buffer.format(epoch).as_bytes());
    append(&mut text, b"-");
    append(&mut text, buffer.format(number).as_bytes());
    append(&mut text, b"\"");
    text
}

fn append(text: &mut ArrayVec<u8, TAG_LIMIT>, bytes: &[u8])
    requires { array_vec_len text.old + length bytes.now ≤ TAG_LIMIT }
    ensures { text.new.items ≡ text.old.items ++ bytes.now }
{
    let added = text.try_extend_from_slice(bytes);
    added.unwrap();
}
