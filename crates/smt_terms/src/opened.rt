//! What a list does that begins.

/// What a list does that begins.
#[derive(Clone, Copy, Debug, PartialEq, Eq)]
pub enum Opened {
    /// It is open, and elaboration goes on at a place.
    At(u32),
    /// It is a forall outside foralls and definitions.
    Universal,
}
