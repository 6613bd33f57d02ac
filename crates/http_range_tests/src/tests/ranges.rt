//! Values of Range, and the parts of a content that they name (RFC 9110, section 14.2).
use assertion_support::expect_eq;
use http_range::{RangeSpec, Resolved, read_range, resolve};
use std::process::Abort;

/// Expects what each value names in a content of its length.
fn expect_all(rt: &impl Abort, rows: &[(&str, u64)], want: Resolved) {
    for row in rows {
        let (value, len) = *row;
        assert!(rt; len > 0, "{value}");
        assert_eq!(rt;
            resolve(read_range(value.as_bytes()), len),
            want,
            "{value} of {len}"
        );
    }
}

/// A row has a value, the length of a content, and the first and the last position of the part.
const PARTS: [(&str, u64, u64, u64); 9] = [
    ("bytes=0-", 1, 0, 0),
    ("bytes=00-01", 378, 0, 1),
    ("bytes=377-", 378, 377, 377),
    ("BYTES=0-0", 378, 0, 0),
    ("bytes=0-999999999999999999999999999999", 378, 0, 377),
    ("bytes=0-0", 378, 0, 0),
    ("bytes=9-10", 10, 9, 9),
    ("bytes=9-10", 11, 9, 10),
    (
        "bytes=18446744073709551614-18446744073709551615",
        18446744073709551615,
        18446744073709551614,
        18446744073709551614,
    ),
];

/// Rows of values for the last bytes.
const SUFFIXES: [(&str, u64, u64, u64); 3] = [
    ("bytes=-7", 378, 371, 377),
    ("bytes=-7", 5, 0, 4),
    ("bytes=-1000", 378, 0, 377),
];

#[test]
fn answers_a_range_with_the_positions_that_the_content_has(rt: HostRuntime) {
    for (value, len, first, last) in PARTS {
        expect_all(&rt, &[(value, len)], Resolved::Part(first, last));
    }
}

#[test]
fn answers_a_suffix_range_with_the_end_of_the_content(rt: HostRuntime) {
    assert_eq!(rt; read_range(b"bytes=-7"), Some(RangeSpec::Suffix(7)));
    for (value, len, first, last) in SUFFIXES {
        expect_all(&rt, &[(value, len)], Resolved::Part(first, last));
    }
}

/// A row has a value of ranges, and the length of a content that has none of their positions.
#[rattlefmt::skip]
const UNSATISFIABLE: [(&str, u64); 6] = [
    ("bytes=1-1", 1),
    ("bytes=-00", 378),
    ("bytes=378-", 378),
    ("bytes=-0", 378),
    ("bytes=9-10", 9),
    ("bytes=18446744073709551615-18446744073709551616", 18446744073709551615),
];

#[test]
fn refuses_a_range_of_which_the_content_has_nothing(rt: HostRuntime) {
    expect_all(&rt, &UNSATISFIABLE, Resolved::Unsatisfiable);
}

/// A row has a value that isn't one range of bytes, and the length of a content.
#[rattlefmt::skip]
const IGNORED: [(&str, u64); 11] = [
    ("bytes=5-4", 3),
    ("bytes=5-4", 378),
    ("bytes=", 378),
    ("bytes=-", 378),
    ("bytes= 0-1", 378),
    ("bytes=+1-2", 378),
    ("bytes=0-1,", 378),
    ("bytes=0-0,5-6", 378),
    ("lines=0-1", 378),
    ("bytes=999999999999999999999999999999-99999999999999999999999999999", 378),
    ("bytes=18446744073709551616-18446744073709551615", 18446744073709551615),
];

#[test]
fn ignores_a_value_that_is_not_one_range(rt: HostRuntime) {
    expect_all(&rt, &IGNORED, Resolved::Whole);
    expect_eq!(rt; resolve(None, 378), Resolved::Whole);
}
