//! The names of files and of hosts.
ghost use Rattle.std.specs.Prelude.{◌≡◌};
ghost use Rattle.std.specs.List.{list_all};
ghost use Rattle.http_fields.specs.Names.{is_host, is_host_byte, is_name, is_name_byte};

use crate::limits::{HOST_LIMIT, NAME_LIMIT};

fn is_name_byte(b: u8) -> bool
    ensures { result ≡ is_name_byte b }
{
    b.is_ascii_alphanumeric() || b == b'.' || b == b'_' || b == b'-' || b == b'/'
}

/// Returns whether a file may have this name: 1 to 200 letters, digits and `._-/`. Each of these bytes stands for
/// itself in the path of a target (RFC 9110, section 4.2.1; RFC 3986, section 3.3). Not each whole name does, since the
/// segments `.` and `..` are taken too.
pub fn is_name(name: &[u8]) -> bool
    ensures { result ≡ is_name name.now }
{
    !name.is_empty() && name.len() <= NAME_LIMIT && are_name_bytes(name)
}

fn are_name_bytes(name: &[u8]) -> bool
    ensures { result ≡ list_all is_name_byte name.now }
{
    name.iter().all(|b| is_name_byte(*b))
}

fn is_host_byte(b: u8) -> bool
    ensures { result ≡ is_host_byte b }
{
    b.is_ascii_alphanumeric() || b == b'.' || b == b'-' || b == b':'
}

/// Returns whether a host may have this name: 1 to 64 letters, digits and `.-:`. So a port may follow (RFC 9110,
/// section 7.2).
pub fn is_host(host: &[u8]) -> bool
    ensures { result ≡ is_host host.now }
{
    !host.is_empty() && host.len() <= HOST_LIMIT && are_host_bytes(host)
}

fn are_host_bytes(host: &[u8]) -> bool
    ensures { result ≡ list_all is_host_byte host.now }
{
    host.iter().all(|b| is_host_byte(*b))
}
