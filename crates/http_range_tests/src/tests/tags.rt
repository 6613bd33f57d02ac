//! Entity tags.
use http_range::{Memory, Tag, publication_tag};
use std::alloc::Global;
use std::test::Fail;

/// Returns the tag of the first publication of the first epoch.
pub fn tag_1() -> Result<Tag, Fail> {
    Ok(Tag::new(b"\"1-1\"").ok_or("tag")?)
}

/// A tag of 64 bytes.
pub const LONGEST_TAG: &[u8] =
    b"\"23456789012345678901234567890123456789012345678901234567890123\"";

/// Returns the longest tag with another byte at a place.
fn changed(alloc: Global, place: usize) -> Result<Vec<u8>, Memory> {
    let mut text = Vec::new(alloc);
    for (i, byte) in LONGEST_TAG.iter().enumerate() {
        text.push(if i == place { b'x' } else { *byte })?;
    }
    Ok(text)
}

#[test]
fn tells_tags_apart_by_each_byte(rt: HostRuntime) -> Result<(), Fail> {
    let longest = Tag::new(LONGEST_TAG).ok_or("64")?;
    assert_eq!(rt; longest.as_bytes().len(), 64);
    assert!(rt; longest == longest.copy());
    assert!(rt; longest != tag_1()?);
    for place in 1..63 {
        let text = changed(rt.alloc(), place)?;
        let other = Tag::new(text.as_slice()).ok_or("changed")?;
        assert!(rt; longest != other, "at {place}");
    }
    Ok(())
}

/// Texts that aren't a strong tag of at most 64 bytes.
const REFUSED: [&str; 8] = [
    "\"234567890123456789012345678901234567890123456789012345678901234\"",
    "W/\"1-1\"",
    "1-1",
    "\"",
    "\"1-1",
    "\"1\"1\"",
    "\"1 1\"",
    "",
];

#[test]
fn refuses_other_texts_than_short_strong_tags(rt: HostRuntime) {
    for text in REFUSED {
        assert!(rt; Tag::new(text.as_bytes()).is_none(), "{text:?}");
    }
}

#[test]
fn names_a_publication_by_its_epoch_and_number(rt: HostRuntime) -> Result<(), Fail> {
    assert!(rt; publication_tag(1, 1) == tag_1()?);
    for (epoch, number, want) in [
        (0, 1, b"\"0-1\"".as_slice()),
        (10, 9, b"\"10-9\""),
        (1, 11, b"\"1-11\""),
        (4294967295, 4294967295, b"\"4294967295-4294967295\""),
    ] {
        assert_eq!(rt;
            publication_tag(epoch, number).as_bytes(),
            want,
            "{epoch} {number}"
        );
    }
    Ok(())
}
