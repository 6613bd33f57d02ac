//! Lines of a head (RFC 9112, sections 2.1 and 5). Each function fails where an allocation fails, and may then leave a
//! part of a line at the end of the text.
ghost use Rattle.std.specs.Prelude.{◌≡◌, ◌++◌, OnOk, decimal};
ghost use Rattle.std.specs.List.{flat_map};
ghost use Rattle.http_fields.specs.Text.{line, closing};

use itoa::Buffer;
use std::alloc::AllocError;

/// Adds the line of a field: its name, a colon, a space, its value, CR and LF.
#[tactic(auto, unfolding(crate::specs::Text::line))]
pub fn push_line(out: &mut Vec<u8>, name: &[u8], value: &[u8]) -> Result<(), AllocError>
    ensures { OnOk result (out.new.items ≡ out.old.items ++ line (name.now, value.now)) }
{
    out.extend_from_slice(name)?;
    out.extend_from_slice(b": ")?;
    out.extend_from_slice(value)?;
    out.extend_from_slice(b"\r\n")?;
    Ok(())
}

/// Adds a number in decimal.
pub fn push_decimal(out: &mut Vec<u8>, n: u64) -> Result<(), AllocError>
    ensures { OnOk result (out.new.items ≡ out.old.items ++ decimal n) }
{
    let mut buffer = Buffer::new();
    out.extend_from_slice(buffer.format(n).as_bytes())?;
    Ok(())
}

/// Adds the line of a field whose value is a number.
pub fn push_number_line(out: &mut Vec<u8>, name: &[u8], n: u128) -> Result<(), AllocError>
    ensures { OnOk result (out.new.items ≡ out.old.items ++ line (name.now, decimal n)) }
{
    let mut buffer = Buffer::new();
    push_line(out, name, buffer.format(n).as_bytes())?;
    Ok(())
}

/// Adds the field `Connection: close`, where `close` is true.
pub fn push_closing(out: &mut Vec<u8>, close: bool) -> Result<(), AllocError>
    ensures { OnOk result (out.new.items ≡ out.old.items ++ flat_map line (closing close)) }
{
    if close {
        push_line(out, b"Connection", b"close")?;
    }
    Ok(())
}
