//! What a clash is told by.

/// Two terms that are kept apart and are equal.
#[derive(Clone, Copy, Debug, PartialEq, Eq)]
pub struct Clash {
    pub left: u32,
    pub right: u32,
}
