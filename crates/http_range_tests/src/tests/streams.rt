//! The length of the first message of a stream.
ghost use Rattle.std.specs.Prelude.{◌≤◌, length};

use assertion_support::expect_eq;
use http_range::{law_messages_stay, message_length};

/// Returns the length of the first message, where the bytes come in two pieces.
fn length_in_pieces(bytes: &[u8], cut: usize) -> Option<usize>
    requires { cut ≤ length bytes.now }
{
    law_messages_stay();
    match message_length(&bytes[..cut], 0) {
        Some(n) => Some(n),
        None => message_length(bytes, cut),
    }
}

/// A row has a stream, and the length of its first message, or 0.
const STREAMS: [(&str, usize); 9] = [
    (
        "GET /a HTTP/1.1\r\nHost: h\r\n\r\nGET /a HTTP/1.1\r\n\r\n",
        28,
    ),
    ("GET /a HTTP/1.1\r\nHost: h\r\n\r", 0),
    ("GET\n\nGET", 5),
    ("GET\n\r\nGET", 6),
    ("\r\n\n\r\nGET\r\n\r\n", 12),
    ("\r\n\r\n\n", 0),
    ("\r\r\n\n", 4),
    ("GET\r\n\r\r\n\r\n", 10),
    ("", 0),
];

#[test]
fn finds_the_end_of_the_first_message_wherever_it_is_cut(rt: HostRuntime) {
    for (text, want) in STREAMS {
        let stream = text.as_bytes();
        for cut in 0..stream.len() + 1 {
            let got = length_in_pieces(stream, cut).unwrap_or(0);
            expect_eq!(rt; got, want, "in {text:?} at {cut}");
        }
    }
}

#[test]
fn ends_a_message_without_an_end_at_8192_bytes(rt: HostRuntime) {
    let long = [b'x'; 8200];
    expect_eq!(rt; length_in_pieces(&long[..8191], 100), None);
    expect_eq!(rt; length_in_pieces(&long[..8192], 100), Some(8192));
    expect_eq!(rt; length_in_pieces(&long, 100), Some(8192));
}
