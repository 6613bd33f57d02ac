//! The hosts and the names by which a client is made.
ghost use Rattle.std.specs.Prelude.{◌≡◌, ◌∷◌, IsTrue, MatchOption, false, drop};
ghost use Rattle.http_range.specs.Names.{is_host, is_name};
ghost use Rattle.http_fields.specs.Target.{IsAuthority, is_authority_text, is_target};

use http_fields::bytes::past;
use http_fields::laws::law_parts_are_read;
use http_fields::targets::{is_authority, is_target};
use http_range::{is_host, is_name};

/// Returns whether this is a host of `Client::new`. It is written as host and port of a URL are.
pub fn is_plain_host(host: &[u8]) -> bool
    ensures value { result ≡ is_host host.now }
    ensures written { IsTrue result → IsTrue (is_authority_text host.now) }
{
    law_parts_are_read();
    is_host(host)
}

/// Returns whether this is a name of `Client::new`. After a `/` it is a target.
pub fn is_plain_name(name: &[u8]) -> bool
    ensures value { result ≡ is_name name.now }
    ensures target { IsTrue result → IsTrue (is_target (47 ∷ name.now)) }
{
    law_parts_are_read();
    is_name(name)
}

/// Returns whether this is the host and the port of a URL.
pub fn is_url_host(authority: &[u8]) -> bool
    ensures yes { IsTrue result → IsAuthority authority.now }
    ensures no { result ≡ false → ¬ (IsAuthority authority.now) }
    ensures written { IsTrue result → IsTrue (is_authority_text authority.now) }
{
    is_authority(authority)
}

/// Returns the target without its `/`, or `None` where it is no target in origin-form.
pub fn name_of_target(target: &[u8]) -> Option<&[u8]>
    ensures { MatchOption result (is_target target.now ≡ false)
        (λ name. IsTrue (is_target target.now) × IsTrue (is_target (47 ∷ name.now)) × (name.now ≡ drop 1 target.now)) }
{
    law_parts_are_read();
    if is_target(target) {
        Some(past(target, 1))
    } else {
        None
    }
}
