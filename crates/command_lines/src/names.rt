//! Names of files that are given by their paths alone.
ghost use Rattle.std.specs.Prelude.{◌≡◌, ◌<◌, IfOk, map, string_bytes};
ghost use Rattle.command_lines.specs.FileName.{name_byte, name_of_path};

use std::alloc::{AllocError, Global};
use std::path::Path;

/// Returns a byte of a name, or `_` instead of a byte that no name has.
fn name_byte(byte: u8) -> u8
    ensures value { result ≡ name_byte byte }
    ensures ascii { result < 128 }
{
    if byte.is_ascii_alphanumeric() || byte == b'.' || byte == b'-' || byte == b'/' {
        byte
    } else {
        b'_'
    }
}

/// Makes a name of the bytes of a text, with `_` instead of each byte that no name has.
fn named_as(alloc: Global, text: &str) -> Result<String, AllocError>
    ensures { IfOk result (λ name. string_bytes name ≡ map name_byte text.now) }
{
    let mut name = String::new(alloc);
    for byte in text.as_bytes() {
        name.push(char::from(name_byte(*byte)))?;
    }
    Ok(name)
}

/// Makes the name of a file of the last part of its path, with `_` instead of each byte that no name has. A path without a last part, as
/// `..`, gives the empty name, which no file has. Fails where no memory is left.
pub fn name_of_path(alloc: Global, path: &str) -> Result<String, AllocError>
    ensures { IfOk result (λ name. string_bytes name ≡ name_of_path path.now) }
{
    named_as(alloc, Path::new(path).file_name().unwrap_or(""))
}
