//! Aids of tests: `expect_eq`, instead of `assert_eq`. `assert_eq` is written out where it stands, and proved there each time.
#![tactic(auto)]

use std::fmt::{Debug, Display, Error, Formatter, Write};

/// Two values that should be equal and aren't, as the end of a test prints them.
#[derive(Drop)]
pub struct Unequal<'a, T> {
    left: &'a T,
    right: &'a T,
}

impl<T: Debug> Display for Unequal<'_, T> {
    fn fmt<W: Write>(&self, f: &mut Formatter<W>) -> Result<(), Error> {
        write!(
            f,
            "not equal\n  left: {:?}\n right: {:?}",
            self.left, self.right
        )
    }
}

/// Returns the two values where they aren't equal.
pub fn difference<'a, T: PartialEq>(left: &'a T, right: &'a T) -> Option<Unequal<'a, T>> {
    if *left == *right {
        return None;
    }
    Some(Unequal { left, right })
}

/// Compares as `assert_eq` does. Nothing is known of the values after it.
#[macro_export]
macro_rules! expect_eq {
    ($rt:expr; $left:expr, $right:expr $(,)?) => {
        if let Some(unequal) = $crate::difference(&$left, &$right) {
            std::process::Abort::panic(&$rt, unequal)
        }
    };
    ($rt:expr; $left:expr, $right:expr, $($note:tt)+) => {
        if let Some(unequal) = $crate::difference(&$left, &$right) {
            std::process::Abort::panic(&$rt, format_args!("{unequal}\n at {}", format_args!($($note)+)))
        }
    };
}
