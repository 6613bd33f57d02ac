//! Expected outcomes, as values of constants.
use crate::facts::{Facts, is_told};
use cog_reader::{Outcome, Window};
use tiff_dir::{FileFault, Pick, Query};

/// The numbers x, y, w and h of a window, and its pick.
pub type Numbers = (u32, u32, u32, u32, Pick);

pub fn window(numbers: Numbers) -> Query {
    let (x, y, w, h, pick) = numbers;
    Query::Window { x, y, w, h, pick }
}

/// Makes a window of level `n`.
pub fn of_level(x: u32, y: u32, w: u32, h: u32, n: u32) -> Query {
    window((x, y, w, h, Pick::Level(n)))
}

/// The expected outcome.
#[derive(Clone, Copy)]
pub enum Want<'a> {
    /// Width, height, samples of a pixel, bits of a sample, and the bytes.
    Window(u32, u32, u16, u16, &'a [u8]),
    Info(Facts<'a>),
    Fault(FileFault),
}

/// Returns whether there is an outcome, and it is the expected one.
pub fn is_wanted(outcome: Option<&Outcome>, want: Want<'_>) -> bool {
    match (outcome, want) {
        (Some(Outcome::Window(found)), Want::Window(w, h, samples, bits, bytes)) => {
            let Window { pixels, .. } = found;
            (found.w, found.h) == (w, h)
                && (found.samples, found.bits) == (samples, bits)
                && pixels.as_slice() == bytes
        }
        (Some(Outcome::Info(info)), Want::Info(facts)) => is_told(info, facts),
        (Some(Outcome::Fault(fault)), Want::Fault(want)) => *fault == want,
        _ => false,
    }
}
