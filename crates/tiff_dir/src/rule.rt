//! What the profile asks of a field.
/// The types that a field of the profile may have.
#[derive(Clone, Copy)]
pub enum Typing {
    Short,
    Long,
    ShortOrLong,
    Ascii,
    Double,
}

/// How many values a field of the profile has.
#[derive(Clone, Copy)]
pub enum ValueCount {
    One,
    /// As many as a pixel has samples.
    Samples,
    /// As many as the level has tiles.
    Tiles,
    Exactly(u32),
    /// A multiple of this number, but not 0.
    Multiple(u32),
}

/// What the profile asks of a field.
#[derive(Clone, Copy)]
pub struct Rule {
    pub tag: u16,
    pub typing: Typing,
    pub count: ValueCount,
    pub required: bool,
}
