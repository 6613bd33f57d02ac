//! Writes the parts of a TIFF file (TIFF 6.0, section 2). After an error `out` may have a part of the bytes that were to be appended.
ghost use Rattle.fixtures_support.specs.Tiff.{directory, entry, header, number, type_number};
ghost use Rattle.std.specs.List.{flat_map};
ghost use Rattle.std.specs.Prelude.{OnOk, length, ◌++◌, ◌<◌, ◌^◌, ◌≡◌};

use std::alloc::AllocError;

/// The byte order of numbers.
#[derive(Clone, Copy, Debug, PartialEq, Eq)]
pub enum Order {
    Little,
    Big,
}

/// The type of the values that stand outside a field's entry.
#[derive(Clone, Copy, Debug, PartialEq, Eq)]
pub enum FieldType {
    Ascii,
    Short,
    Long,
    Double,
}

/// The value of a field: one value in its entry, or `count` values of type `kind` that stand from position `first` on.
#[derive(Clone, Copy, Debug, PartialEq, Eq)]
pub enum Values {
    Short(u16),
    Long(u32),
    At {
        kind: FieldType,
        count: u32,
        first: u32,
    },
}

/// A field of a directory.
#[derive(Clone, Copy, Debug, PartialEq, Eq)]
pub struct Field {
    pub tag: u16,
    pub values: Values,
}

/// Appends a number of two bytes.
#[tactic(auto, unfolding(crate::specs::Tiff::number))]
pub fn push_short(out: &mut Vec<u8>, order: Order, short: u16) -> Result<(), AllocError>
    ensures { OnOk result (out.new.items ≡ out.old.items ++ number order 2 short) }
{
    match order {
        Order::Little => out.extend_from_slice(&short.to_le_bytes()),
        Order::Big => out.extend_from_slice(&short.to_be_bytes()),
    }
}

/// Appends a number of four bytes.
#[tactic(auto, unfolding(crate::specs::Tiff::number))]
pub fn push_long(out: &mut Vec<u8>, order: Order, long: u32) -> Result<(), AllocError>
    ensures { OnOk result (out.new.items ≡ out.old.items ++ number order 4 long) }
{
    match order {
        Order::Little => out.extend_from_slice(&long.to_le_bytes()),
        Order::Big => out.extend_from_slice(&long.to_be_bytes()),
    }
}

/// Appends a number of eight bytes, such as the bits of a double.
#[tactic(auto, unfolding(crate::specs::Tiff::number))]
pub fn push_double(out: &mut Vec<u8>, order: Order, bits: u64) -> Result<(), AllocError>
    ensures { OnOk result (out.new.items ≡ out.old.items ++ number order 8 bits) }
{
    match order {
        Order::Little => out.extend_from_slice(&bits.to_le_bytes()),
        Order::Big => out.extend_from_slice(&bits.to_be_bytes()),
    }
}

/// Appends the header: the letters of the order, 42, and the offset of the first directory.
#[tactic(auto, unfolding(crate::specs::Tiff::header, crate::specs::Tiff::letters))]
pub fn push_header(out: &mut Vec<u8>, order: Order, first: u32) -> Result<(), AllocError>
    ensures { OnOk result (out.new.items ≡ out.old.items ++ header order first) }
{
    match order {
        Order::Little => out.extend_from_slice(b"II")?,
        Order::Big => out.extend_from_slice(b"MM")?,
    }
    push_short(out, order, 42)?;
    push_long(out, order, first)
}

/// Returns the number of a type.
fn number_of(kind: FieldType) -> u16
    ensures { result ≡ type_number kind }
{
    match kind {
        FieldType::Ascii => 2,
        FieldType::Short => 3,
        FieldType::Long => 4,
        FieldType::Double => 12,
    }
}

/// Appends the 12 bytes of a field's entry.
#[tactic(auto, unfolding(crate::specs::Tiff::entry))]
fn push_entry(out: &mut Vec<u8>, order: Order, field: Field) -> Result<(), AllocError>
    ensures { OnOk result (out.new.items ≡ out.old.items ++ entry order field) }
{
    push_short(out, order, field.tag)?;
    match field.values {
        Values::Short(value) => {
            push_short(out, order, number_of(FieldType::Short))?;
            push_long(out, order, 1)?;
            push_short(out, order, value)?;
            push_short(out, order, 0)
        }
        Values::Long(value) => {
            push_short(out, order, number_of(FieldType::Long))?;
            push_long(out, order, 1)?;
            push_long(out, order, value)
        }
        Values::At { kind, count, first } => {
            push_short(out, order, number_of(kind))?;
            push_long(out, order, count)?;
            push_long(out, order, first)
        }
    }
}

fn push_entries(out: &mut Vec<u8>, order: Order, fields: &[Field]) -> Result<(), AllocError>
    ensures { OnOk result (out.new.items ≡ out.old.items ++ flat_map (entry order) fields.now) }
{
    for field in fields {
        push_entry(out, order, *field)?;
    }
    Ok(())
}

/// Appends a directory: the number of its entries, the entries, and the offset of the next directory.
#[tactic(auto, unfolding(crate::specs::Tiff::directory))]
pub fn push_directory(
    out: &mut Vec<u8>,
    order: Order,
    fields: &[Field],
    next: u32,
) -> Result<(), AllocError>
    requires { length fields.now < 2 ^ 16 }
    ensures { OnOk result (out.new.items ≡ out.old.items ++ directory order fields.now next) }
{
    push_short(out, order, fields.len() as u16)?;
    push_entries(out, order, fields)?;
    push_long(out, order, next)
}
