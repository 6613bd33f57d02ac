//! What is printed of two values that should be equal.
use assertion_support::difference;
use std::process::Abort;
use std::test::Fail;

#[test]
fn tells_two_values_that_differ(rt: HostRuntime) -> Result<(), Fail> {
    let unequal = difference(&7, &8).ok_or("no difference")?;
    let text = format!(in rt.alloc(); "{unequal}")?;
    assert_eq!(rt; text.as_str(), "not equal\n  left: 7\n right: 8");
    assert!(rt; difference(&Some(0), &None).is_some());
    Ok(())
}

#[test]
fn tells_nothing_of_equal_values(rt: HostRuntime) {
    assert!(rt; difference(&7, &7).is_none());
    assert!(rt; difference(&Some(0), &Some(0)).is_none());
}
