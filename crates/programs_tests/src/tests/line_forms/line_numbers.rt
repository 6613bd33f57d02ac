//! Numbers of command lines.
use assertion_support::expect_eq;
use command_lines::number_from;

/// A row has a word, the least and the greatest number of its range, and the number that it writes.
const NUMBERS: [(&str, u32, u32, Option<u32>); 12] = [
    ("0", 0, u32::MAX, Some(0)),
    ("4294967295", 0, u32::MAX, Some(u32::MAX)),
    ("4294967296", 0, u32::MAX, None),
    ("0000000066", 66, 4096, Some(66)),
    ("00000000066", 66, 4096, None),
    ("65", 66, 4096, None),
    ("4096", 66, 4096, Some(4096)),
    ("4097", 66, 4096, None),
    ("", 0, u32::MAX, None),
    ("+1", 0, u32::MAX, None),
    ("1 ", 0, u32::MAX, None),
    ("0x1", 0, u32::MAX, None),
];

#[test]
fn reads_ten_digits_at_most_and_a_number_in_its_range(rt: HostRuntime) {
    for (word, least, greatest, want) in NUMBERS {
        expect_eq!(rt; number_from(word, least, greatest), want, "{word:?}");
    }
}
