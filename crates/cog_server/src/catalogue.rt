//! The files of a server.
ghost use Rattle.std.specs.Prelude.{◌≡◌, ◌<◌, ◌&&◌, is_none, nat_le, IfSome, IfErr, OnOk, OnErr, length, map, option_map, option_copied};
ghost use Rattle.std.specs.List.{find, list_any, position};
ghost use Rattle.std.specs.Str.{bytes_eq};
ghost use Rattle.http_range.specs.Book.{published};
ghost use Rattle.cog_server.specs.Catalogue.{publication, put_at};

use crate::error::PublishError;
use crate::published::Published;
use http_range::{NAMES_LIMIT, Tag};

/// Returns the place of the file `name`, or `None`.
pub fn place_of(files: &[Published], name: &[u8]) -> Option<usize>
    ensures { result ≡ position (λ file. bytes_eq file.name.items name.now) files.now }
{
    files.iter().position(|file| file.name.as_slice() == name)
}

fn first_named<'f>(files: &'f [Published], name: &[u8]) -> Option<&'f Published>
    ensures { option_copied result ≡ find (λ file. bytes_eq file.name.items name.now) files.now }
{
    files.iter().find(|file| file.name.as_slice() == name)
}

/// Returns the file `name`, or `None`.
pub fn find_file<'f>(files: &'f [Published], name: &[u8]) -> Option<&'f Published>
    ensures { option_map publication (option_copied result) ≡ published name.now (map publication files.now) }
{
    first_named(files, name)
}

/// Returns whether a file is published under this ETag.
pub fn has_tag(files: &[Published], tag: &Tag) -> bool
    ensures { result ≡ list_any (λ file. bytes_eq file.tag tag.now) files.now }
{
    files
        .iter()
        .any(|file| file.tag.as_bytes() == tag.as_bytes())
}

/// Stores a file at `place`, or at the end where that is `None`. Fails with `Memory` alone, and then changes nothing.
pub fn put(
    files: &mut Vec<Published>,
    place: Option<usize>,
    file: Published,
) -> Result<(), PublishError>
    requires { IfSome place (λ i. i < length files.old.items) }
    ensures ok { OnOk result (map publication files.new.items
        ≡ put_at place (publication file) (map publication files.old.items)) }
    ensures err { OnErr result (files.new.items ≡ files.old.items) }
    ensures memory { IfErr result (λ e. e ≡ PublishError.Memory) }
{
    match place {
        Some(i) => {
            files[i] = file;
            Ok(())
        }
        None => match files.push(file) {
            Ok(()) => Ok(()),
            Err(_) => Err(PublishError::Memory),
        },
    }
}

/// Returns whether there is no file `name`, and there are 64 other names.
pub fn is_crowded(files: &[Published], name: &[u8]) -> bool
    ensures { result
        ≡ (is_none (published name.now (map publication files.now)) && nat_le NAMES_LIMIT (length (map publication files.now))) }
{
    place_of(files, name).is_none() && files.len() >= NAMES_LIMIT
}
