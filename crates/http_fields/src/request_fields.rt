//! The field lines that a caller adds to a client's requests (RFC 9110, section 5).
ghost use Rattle.std.specs.Prelude.{◌≡◌, ◌≤◌, ◌++◌, ◌∷◌, ◌+◌, [], None, IfErr, OnErr, OnOk, length, nat_le};
ghost use Rattle.std.specs.List.{flat_map, list_all};
ghost use Rattle.http_fields.specs.declared.limits.TheConstants.{EXTRA_BYTES_LIMIT};
ghost use Rattle.http_fields.specs.Text.{line};
ghost use Rattle.http_fields.specs.KeptFields.{line_of, lines_of};
ghost use Rattle.http_fields.specs.RequestFields.{is_bare, is_condition, is_field_value, is_of_body, is_of_connection, is_reserved, is_value_char, is_visible_char, is_written};

use crate::bytes::is_same_word;
use crate::limits::{EXTRA_BYTES_LIMIT, EXTRA_LINES_LIMIT};
use crate::line::push_line;
use httparse::is_token;
use std::alloc::{AllocError, AllocFailed, Global};
use std::marker::Model;
use thiserror::Error;

/// Why a field line isn't added to a client's requests.
#[derive(Clone, Copy, Debug, Error, PartialEq, Eq)]
pub enum FieldError {
    /// The name isn't a token (RFC 9110, section 5.6.2).
    #[error("not a name of a field")]
    Name,
    /// The name is reserved (`is_reserved`).
    #[error("a field that the client writes itself, or that changes the connection or the answer")]
    Reserved,
    /// The value isn't visible ASCII with spaces and tabs inside (RFC 9110, section 5.5).
    #[error("not a value of a field")]
    Value,
    /// There are 16 lines.
    #[error("more than 16 field lines")]
    Lines,
    /// All lines together would have more than 1,024 bytes.
    #[error("field lines of more than 1,024 bytes")]
    Bytes,
    /// An allocation failed.
    #[error("out of memory")]
    Memory,
}

impl From<AllocError> for FieldError {
    ghost use Rattle.http_fields.specs.declared.request_fields.FieldError.TheVariants.{Memory};

    ghost from_gives = { λ _ e. e ≡ Memory };

    ghost use Rattle.std.specs.Prelude.{◌≡◌};

    fn from(_refused: AllocError) -> FieldError {
        FieldError::Memory
    }
}

impl<T: Drop> From<AllocFailed<T>> for FieldError {
    ghost use Rattle.http_fields.specs.declared.request_fields.FieldError.TheVariants.{Memory};

    ghost from_gives = { λ _ e. e ≡ Memory };

    ghost use Rattle.std.specs.Prelude.{◌≡◌};

    fn from(_refused: AllocFailed<T>) -> FieldError {
        FieldError::Memory
    }
}

fn is_visible_char(b: u8) -> bool
    ensures { result ≡ is_visible_char b }
{
    b > b' ' && b < 127
}

fn is_value_char(b: u8) -> bool
    ensures { result ≡ is_value_char b }
{
    is_visible_char(b) || b == b' ' || b == b'\t'
}

fn are_value_chars(value: &[u8]) -> bool
    ensures { result ≡ list_all is_value_char value.now }
{
    value.iter().all(|b| is_value_char(*b))
}

fn is_bare(value: &[u8]) -> bool
    ensures { result ≡ is_bare value.now }
{
    if value.len() == 0 {
        return true;
    }
    is_visible_char(value[0]) && is_visible_char(value[value.len() - 1])
}

/// Returns whether the text is the value of a field line, of ASCII: visible characters, and spaces and tabs between them
/// (RFC 9110, section 5.5).
pub fn is_field_value(value: &[u8]) -> bool
    ensures { result ≡ is_field_value value.now }
{
    are_value_chars(value) && is_bare(value)
}

/// Returns whether a client writes a field of this name itself.
fn is_written(name: &[u8]) -> bool
    ensures { result ≡ is_written name.now }
{
    is_same_word(name, b"Host")
        || is_same_word(name, b"Range")
        || is_same_word(name, b"If-Range")
        || is_same_word(name, b"If-None-Match")
        || is_same_word(name, b"Connection")
}

/// Returns whether a field of this name is another condition.
fn is_condition(name: &[u8]) -> bool
    ensures { result ≡ is_condition name.now }
{
    is_same_word(name, b"If-Match")
        || is_same_word(name, b"If-Modified-Since")
        || is_same_word(name, b"If-Unmodified-Since")
}

/// Returns whether a field of this name announces a body.
fn is_of_body(name: &[u8]) -> bool
    ensures { result ≡ is_of_body name.now }
{
    is_same_word(name, b"Content-Length")
        || is_same_word(name, b"Transfer-Encoding")
        || is_same_word(name, b"Trailer")
        || is_same_word(name, b"Expect")
}

/// Returns whether a field of this name is of the connection.
fn is_of_connection(name: &[u8]) -> bool
    ensures { result ≡ is_of_connection name.now }
{
    is_same_word(name, b"TE")
        || is_same_word(name, b"Upgrade")
        || is_same_word(name, b"Keep-Alive")
        || is_same_word(name, b"Proxy-Connection")
}

/// Returns whether a caller may not add a field of this name to a client's requests. Case is ignored. These are the
/// fields that a client writes itself (Host, Range, If-Range, If-None-Match, Connection), and the other conditions
/// (If-Match, If-Modified-Since, If-Unmodified-Since). They also are those that announce a body (Content-Length,
/// Transfer-Encoding, Trailer, Expect), and those of the connection (TE, Upgrade, Keep-Alive, Proxy-Connection).
pub fn is_reserved(name: &[u8]) -> bool
    ensures { result ≡ is_reserved name.now }
{
    is_written(name) || is_condition(name) || is_of_body(name) || is_of_connection(name)
}

/// A field line that is kept.
#[derive(Drop)]
struct RequestField {
    name: Vec<u8>,
    value: Vec<u8>,
}

/// Adds the line to a text.
fn push_field(out: &mut Vec<u8>, field: &RequestField) -> Result<(), AllocError>
    ensures { OnOk result (out.new.items ≡ out.old.items ++ line (line_of field.now)) }
{
    push_line(out, &field.name, &field.value)
}

/// Adds the lines to a text.
fn push_fields(out: &mut Vec<u8>, fields: &[RequestField]) -> Result<(), AllocError>
    ensures { OnOk result (out.new.items ≡ out.old.items ++ flat_map line (lines_of fields.now)) }
{
    for field in fields {
        push_field(out, field)?;
    }
    Ok(())
}

/// Returns whether a line of this name and value has room after `size` bytes of lines.
fn fits(size: usize, name: &[u8], value: &[u8]) -> bool
    requires { size ≤ EXTRA_BYTES_LIMIT }
    ensures { result ≡ nat_le (size + (length name.now + length value.now + 4)) EXTRA_BYTES_LIMIT }
{
    name.len() <= EXTRA_BYTES_LIMIT
        && value.len() <= EXTRA_BYTES_LIMIT
        && size + (name.len() + value.len() + 4) <= EXTRA_BYTES_LIMIT
}

/// Field lines that a caller adds to a client's requests, such as `Authorization`: at most 16 of them, and 1,024 bytes
/// in all. Contracts see them as the list of names and values.
pub struct RequestFields {
    alloc: Global,
    fields: Vec<RequestField>,
    size: usize,
}

impl Drop for RequestFields {
    fn drop(self) {
        let RequestFields {
            alloc: _,
            fields: _,
            size: _,
        } = self;
    }
}

impl Model for RequestFields {
    ghost use Rattle.std.specs.Prelude.{List};
    ghost use Rattle.http_fields.specs.Text.{FieldLine};
    ghost use Rattle.http_fields.specs.KeptFields.{IsKept, lines_view};

    ghost Value = { List FieldLine };

    ghost view = { lines_view };

    ghost invariant = { IsKept };
}

impl RequestFields {
    ghost use Rattle.http_fields.specs.RequestFields.{AreExtra};
    ghost use Rattle.http_fields.specs.FieldRefusal.{IsFieldRefusal, field_refusal};

    /// Returns no field lines. It allocates nothing.
    pub fn new(alloc: Global) -> RequestFields
        ensures { result ≡ [] }
    {
        RequestFields {
            alloc,
            fields: Vec::new(alloc),
            size: 0,
        }
    }

    /// Adds the lines to a text.
    pub fn write(&self, out: &mut Vec<u8>) -> Result<(), AllocError>
        ensures { OnOk result (out.new.items ≡ out.old.items ++ flat_map line self.now) }
    {
        push_fields(out, &self.fields)
    }

    /// Does nothing: its contract states what the lines are.
    pub fn may_be_added(&self)
        ensures { AreExtra self.now }
    {
        let _size = self.size;
    }

    /// Adds a field line after the others. Fails with the first of these that holds, and then adds nothing:
    /// - `Name`: the name isn't a token.
    /// - `Reserved`: the name is one that `is_reserved` refuses.
    /// - `Value`: the value has a byte that isn't visible ASCII, a space or a tab, or begins or ends with white space.
    /// - `Lines`: there are 16 lines.
    /// - `Bytes`: all lines together would have more than 1,024 bytes, each with `: ` and its end of two bytes.
    /// - `Memory`: an allocation failed.
    ///
    /// ```
    /// let mut fields = RequestFields::new(rt.alloc());
    /// fields.push(b"User-Agent", b"reader/1.0")?;
    /// ```
    pub fn push(&mut self, name: &[u8], value: &[u8]) -> Result<(), FieldError>
        ensures ok { OnOk result (self.new ≡ self.old ++ (name.now, value.now) ∷ []) }
        ensures err { IfErr result (IsFieldRefusal (field_refusal self.old (name.now, value.now))) }
        ensures unchanged { OnErr result (self.new ≡ self.old) }
    {
        if let Some(refusal) = self.refusal(name, value) {
            return Err(refusal);
        }
        self.add(name, value)
    }

    /// Returns why the line may not be added, if anything stands against it.
    fn refusal(&self, name: &[u8], value: &[u8]) -> Option<FieldError>
        ensures { result ≡ field_refusal self.now (name.now, value.now) }
    {
        if !is_token(name) {
            Some(FieldError::Name)
        } else if is_reserved(name) {
            Some(FieldError::Reserved)
        } else if !is_field_value(value) {
            Some(FieldError::Value)
        } else if self.fields.len() >= EXTRA_LINES_LIMIT {
            Some(FieldError::Lines)
        } else if !fits(self.size, name, value) {
            Some(FieldError::Bytes)
        } else {
            None
        }
    }

    /// Adds the line. Fails with `Memory` alone.
    fn add(&mut self, name: &[u8], value: &[u8]) -> Result<(), FieldError>
        requires { field_refusal self.old (name.now, value.now) ≡ None }
        ensures ok { OnOk result (self.new ≡ self.old ++ (name.now, value.now) ∷ []) }
        ensures err { IfErr result (λ e. e ≡ FieldError.Memory) }
        ensures unchanged { OnErr result (self.new ≡ self.old) }
    {
        let field = RequestField {
            name: Vec::from_slice(self.alloc, name)?,
            value: Vec::from_slice(self.alloc, value)?,
        };
        self.fields.push(field)?;
        self.size = self.size + (name.len() + value.len() + 4);
        Ok(())
    }
}
