//! Info as lines of text.
ghost use Rattle.std.specs.Prelude.{◌≡◌, ◌++◌, IfOk, OnOk};
ghost use Rattle.text_report.specs.InfoText.{IsOfTag};

use cog_reader::Info;
use extents::Memory;
use geokeys::{Key, KeyValue};
use http_fields::tag::Tag;
use std::alloc::{AllocError, Global};

/// Returns Info as text, one fact a line. The first line has the ETag `tag`. Then come the columns and rows of each level, the minor
/// revision of the keys, the keys, and the model fields that are there. A double is written as 16 hexadecimal digits. In ASCII values a
/// backslash, and each byte that isn't printable, is written as `\x` and two hexadecimal digits. Fails where no memory is left.
pub fn info_text(alloc: Global, tag: &Tag, info: &Info) -> Result<Vec<u8>, Memory>
    ensures { IfOk result (λ text. IsOfTag tag.now text.items) }
{
    let facts = facts(alloc, info)?;
    let mut text = Vec::new(alloc);
    push(&mut text, b"tag ")?;
    push(&mut text, tag.as_bytes())?;
    push(&mut text, b"\n")?;
    push(&mut text, &facts)?;
    Ok(text)
}

/// Returns the lines that follow the ETag's.
fn facts(alloc: Global, info: &Info) -> Result<Vec<u8>, AllocError> {
    let mut text = Vec::new(alloc);
    for (n, (width, length)) in info.sides.iter().enumerate() {
        push(
            &mut text,
            format!(in alloc; "level {n} {width} {length}\n")?.as_bytes(),
        )?;
    }
    push(
        &mut text,
        format!(in alloc; "minor {}\n", info.geo.minor)?.as_bytes(),
    )?;
    for key in info.geo.keys.iter() {
        push_key(alloc, &mut text, key)?;
    }
    push_field(alloc, &mut text, b"scale", &info.scale)?;
    push_field(alloc, &mut text, b"tiepoint", &info.tiepoints)?;
    push_field(alloc, &mut text, b"transform", &info.transformation)?;
    Ok(text)
}

fn push(text: &mut Vec<u8>, bytes: &[u8]) -> Result<(), AllocError>
    ensures { OnOk result (text.new.items ≡ text.old.items ++ bytes.now) }
{
    text.extend_from_slice(bytes)
}

fn push_key(alloc: Global, text: &mut Vec<u8>, key: &Key) -> Result<(), AllocError> {
    push(text, format!(in alloc; "key {} ", key.id)?.as_bytes())?;
    match &key.value {
        KeyValue::Short(number) => push(text, format!(in alloc; "short {number}")?.as_bytes())?,
        KeyValue::Doubles(items) => {
            push(text, b"doubles")?;
            push_doubles(alloc, text, items)?;
        }
        KeyValue::Ascii(bytes) => {
            push(text, b"ascii ")?;
            push_ascii(alloc, text, bytes)?;
        }
    }
    push(text, b"\n")
}

/// Appends the line of a model field, if the file has the field.
fn push_field(
    alloc: Global,
    text: &mut Vec<u8>,
    name: &[u8],
    items: &Option<Vec<[u8; 8]>>,
) -> Result<(), AllocError> {
    let Some(items) = items else {
        return Ok(());
    };
    push(text, name)?;
    push_doubles(alloc, text, items)?;
    push(text, b"\n")
}

fn push_doubles(alloc: Global, text: &mut Vec<u8>, items: &[[u8; 8]]) -> Result<(), AllocError> {
    for item in items {
        push(text, b" ")?;
        push(text, hex::encode(alloc, item)?.as_bytes())?;
    }
    Ok(())
}

fn push_ascii(alloc: Global, text: &mut Vec<u8>, bytes: &[u8]) -> Result<(), AllocError> {
    for byte in bytes {
        match byte {
            b'\\' => push(text, b"\\x5c")?,
            b' '..=b'~' => text.push(*byte)?,
            _ => {
                push(text, b"\\x")?;
                push(text, hex::encode(alloc, &[*byte])?.as_bytes())?;
            }
        }
    }
    Ok(())
}
