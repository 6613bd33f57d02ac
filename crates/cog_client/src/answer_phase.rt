//! How far an answer has come that comes in pieces.
use crate::body::Body;
use crate::case::Case;
use crate::delivered::Ignored;
use http_range::{Head, Why};

/// How far an answer has come.
#[derive(Drop)]
pub enum AnswerPhase {
    /// Its head isn't whole. The value is the number of its bytes, which are kept.
    Waits(usize),
    /// The answer isn't used, whatever follows.
    Unused(Why),
    /// The body is passed over, by the case of the head.
    Passed(Ignored),
    /// The body is taken, by the case of the head.
    Follows(Head, Case, Body),
}
