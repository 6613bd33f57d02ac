//! Names of files and of hosts, and parts of URLs.
use http_range::{is_authority, is_host, is_name, is_target};

/// Targets in origin-form (RFC 9112, section 3.2.1; RFC 3986, sections 3.3 and 3.4).
const TARGETS: [&str; 13] = [
    "/",
    "/a.tif",
    "/a.tif?X-Amz-Signature=0f",
    "/year=2020/a%20b.tif",
    "/a+b~c",
    "/%E4%f6",
    "//",
    "/a//b/../.",
    "/?",
    "/a?b?c/d",
    "/@:,;!$&'()*",
    "/-._~",
    "/a=b&c",
];

/// Texts that aren't targets in origin-form.
const NO_TARGETS: [&str; 24] = [
    "",
    "a",
    "*",
    "?a",
    "%2Fa",
    "http://h/a",
    "/a b",
    "/%",
    "/%2",
    "/%2g",
    "/%g2",
    "/%%20",
    "/a#b",
    "/\"",
    "/<a>",
    "/[a]",
    "/a\\b",
    "/{a}",
    "/^",
    "/`",
    "/a|b",
    "/\t",
    "/a\r\nb",
    "/\u{e4}",
];

/// Hosts with ports, as URLs have them (RFC 3986, sections 3.2.2 and 3.2.3).
const AUTHORITIES: [&str; 16] = [
    "h",
    "cog.test",
    "cog.test:8080",
    "h:",
    "127.0.0.1:80",
    "a_b~c",
    "%41:80",
    "a!$&'()*+,;=b",
    "[::]",
    "[::1]",
    "[::1]:8080",
    "[2001:db8::7]:",
    "[1:2:3:4:5:6:7:8]",
    "[::ffff:192.0.2.1]",
    "[FE80::a]",
    "1.2.3.4.5",
];

/// Texts that aren't such hosts with ports.
const NO_AUTHORITIES: [&str; 24] = [
    "",
    ":80",
    "a@b",
    "u:p@h",
    "h:8a",
    "h:80:81",
    "a/b",
    "a b",
    "a?b",
    "%4",
    "%4g",
    "::1",
    "[::1",
    "::1]",
    "[]",
    "[::g]",
    "[::1]8080",
    "[::1]]",
    "[::1]:8a",
    "[1.2.3.4]",
    "[1:2:3:4:5:6:7]",
    "[1::2::3]",
    "[v1.a]",
    "\u{e4}",
];

#[test]
fn takes_names_of_files_up_to_200_bytes(rt: HostRuntime) {
    let longer = [b'a'; 201];
    assert!(rt; is_name(&longer[..200]));
    assert!(rt; !is_name(&longer));
    assert!(rt; is_name(b"A/z.0_-9"));
    for name in [b"".as_slice(), b"a b", b"a:b", b"a?b", b"\xC3\xA4"] {
        assert!(rt; !is_name(name), "{name:?}");
    }
}

#[test]
fn takes_names_of_hosts_up_to_64_bytes(rt: HostRuntime) {
    let longer = [b'a'; 65];
    assert!(rt; is_host(&longer[..64]));
    assert!(rt; !is_host(&longer));
    assert!(rt; is_host(b"Cog-1.test:8080"));
    for host in ["", "a/b", "a_b", "a b"] {
        assert!(rt; !is_host(host.as_bytes()), "{host:?}");
    }
}

#[test]
fn takes_targets_in_origin_form(rt: HostRuntime) {
    let mut longer = [b'a'; 2049];
    longer[0] = b'/';
    assert!(rt; is_target(&longer[..2048]));
    assert!(rt; !is_target(&longer));
    for target in &TARGETS {
        assert!(rt; is_target(target.as_bytes()), "{target:?}");
    }
    for target in &NO_TARGETS {
        assert!(rt; !is_target(target.as_bytes()), "{target:?}");
    }
}

#[test]
fn takes_hosts_and_ports_of_urls(rt: HostRuntime) {
    let longer = [b'a'; 256];
    assert!(rt; is_authority(&longer[..255]));
    assert!(rt; !is_authority(&longer));
    for authority in &AUTHORITIES {
        assert!(rt; is_authority(authority.as_bytes()), "{authority:?}");
    }
    for authority in &NO_AUTHORITIES {
        assert!(rt; !is_authority(authority.as_bytes()), "{authority:?}");
    }
}
