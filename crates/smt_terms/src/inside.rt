//! What a term stands inside.

/// What a term stands inside.
#[derive(Clone, Copy, Debug, PartialEq, Eq)]
pub struct Inside {
    /// It stands inside a forall.
    pub in_forall: bool,
    /// It stands inside a definition.
    pub in_definition: bool,
}
