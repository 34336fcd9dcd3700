//! What a name stands for that is not bound.

use crate::connective::Connective;

/// What a name stands for that is not bound.
#[derive(Clone, Copy, Debug, PartialEq, Eq)]
pub enum Head {
    /// A name of the core theory.
    Core(Connective),
    /// The declared function at a place.
    Function(u32),
    /// The definition at a place.
    Definition(u32),
    /// Nothing.
    Unknown,
}
