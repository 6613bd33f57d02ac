//! The target of a request, and the host and the port of a URL (RFC 9112, section 3.2.1; RFC 3986, section 3).
ghost use Rattle.std.specs.Prelude.{◌≡◌, ◌↔◌, IsTrue};
ghost use Rattle.std.specs.Char.{is_ascii_digit};
ghost use Rattle.std.specs.List.{list_all};
ghost use Rattle.http_fields.specs.Target.{IsAddress, IsAuthority, IsBracketed, IsLiteralHost, are_escapes_whole, begins_with_hex, is_authority_char, is_authority_text, is_name_char, is_named_host, is_port_part, is_reg_name, is_target, is_target_char, is_whole_before};

use crate::bytes::{after, place_of};
use crate::limits::{AUTHORITY_LIMIT, TARGET_LIMIT};
use std::net::Ipv6Addr;

fn is_name_char(b: u8) -> bool
    ensures { result ≡ is_name_char b }
{
    b.is_ascii_alphanumeric() || b"-._~!$&'()*+,;=%".contains(&b)
}

fn is_target_char(b: u8) -> bool
    ensures { result ≡ is_target_char b }
{
    is_name_char(b) || b":@/?".contains(&b)
}

fn is_authority_char(b: u8) -> bool
    ensures { result ≡ is_authority_char b }
{
    is_name_char(b) || b":[]".contains(&b)
}

fn begins_with_hex(text: &[u8]) -> bool
    ensures { result ≡ begins_with_hex text.now }
{
    match text {
        [high, low, ..] => high.is_ascii_hexdigit() && low.is_ascii_hexdigit(),
        _ => false,
    }
}

/// Returns whether the text is a target in origin-form of at most 2,048 bytes: a path that begins with `/`, and a query
/// or none. Each `%` stands before two hexadecimal digits (RFC 3986, section 2.1).
///
/// ```
/// assert!(rt; is_target(b"/year=2020/a%20b.tif?X-Amz-Signature=0f"));
/// ```
pub fn is_target(text: &[u8]) -> bool
    ensures { result ≡ is_target text.now }
{
    text.len() <= TARGET_LIMIT
        && text.starts_with(b"/")
        && are_target_chars(text)
        && are_escapes_whole(text)
}

fn are_target_chars(text: &[u8]) -> bool
    ensures { result ≡ list_all is_target_char text.now }
{
    text.iter().all(|b| is_target_char(*b))
}

fn is_whole_before(b: u8, rest: &[u8]) -> bool
    ensures { result ≡ is_whole_before b rest.now }
{
    b != b'%' || begins_with_hex(rest)
}

fn are_escapes_whole(text: &[u8]) -> bool
    ensures { result ≡ are_escapes_whole text.now }
{
    for (i, b) in text.iter().enumerate() {
        if !is_whole_before(*b, after(text, i + 1)) {
            return false;
        }
    }
    true
}

/// Returns whether the text is host and port as a URL has them, without userinfo: 1 to 255 bytes. The host is a name, an
/// IPv4 address, or an IPv6 address in brackets. A port may follow after a colon (RFC 3986, sections 3.2.2 and 3.2.3).
///
/// ```
/// assert!(rt; is_authority(b"[::1]:8080"));
/// ```
pub fn is_authority(text: &[u8]) -> bool
    ensures { IsTrue result ↔ IsAuthority text.now }
{
    is_authority_text(text) && (is_named_host(text) || is_literal_host(text))
}

fn is_authority_text(text: &[u8]) -> bool
    ensures { result ≡ is_authority_text text.now }
{
    !text.is_empty() && text.len() <= AUTHORITY_LIMIT && are_authority_chars(text)
}

fn are_authority_chars(text: &[u8]) -> bool
    ensures { result ≡ list_all is_authority_char text.now }
{
    text.iter().all(|b| is_authority_char(*b))
}

fn is_named_host(text: &[u8]) -> bool
    ensures { result ≡ is_named_host text.now }
{
    let n = place_of(text, b':');
    is_reg_name(&text[..n]) && is_port_part(after(text, n))
}

fn is_reg_name(text: &[u8]) -> bool
    ensures { result ≡ is_reg_name text.now }
{
    !text.is_empty() && are_name_chars(text) && are_escapes_whole(text)
}

fn are_name_chars(text: &[u8]) -> bool
    ensures { result ≡ list_all is_name_char text.now }
{
    text.iter().all(|b| is_name_char(*b))
}

fn is_literal_host(text: &[u8]) -> bool
    ensures { IsTrue result ↔ IsLiteralHost text.now }
{
    match text {
        [] => false,
        [bracket, rest @ ..] => *bracket == b'[' && is_bracketed(rest),
    }
}

fn is_bracketed(text: &[u8]) -> bool
    ensures { IsTrue result ↔ IsBracketed text.now }
{
    let n = place_of(text, b']');
    n < text.len() && is_address(&text[..n]) && is_port_part(after(text, n + 1))
}

fn is_address(text: &[u8]) -> bool
    ensures { IsTrue result ↔ IsAddress text.now }
{
    Ipv6Addr::parse_ascii(text).is_ok()
}

fn is_port_part(text: &[u8]) -> bool
    ensures { result ≡ is_port_part text.now }
{
    match text {
        [] => true,
        [colon, digits @ ..] => *colon == b':' && are_digits(digits),
    }
}

fn are_digits(text: &[u8]) -> bool
    ensures { result ≡ list_all is_ascii_digit text.now }
{
    text.iter().all(|b| b.is_ascii_digit())
}
