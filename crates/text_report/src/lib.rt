//! Prints outcomes for users: a window as a picture, Info as lines of text, and a fault as a sentence. It escapes the control characters of
//! texts that others wrote as `\u{..}`.
#![tactic(auto)]

mod escaped_text;
mod found;
mod info;
mod netpbm;
mod sentences;

pub use escaped_text::EscapedText;
pub use found::found_value;
pub use info::info_text;
pub use netpbm::{picture_head, window_picture};
pub use sentences::{ExplainedFault, FaultSentence, WayOut};
