//! The four nodes on which `xor` and `=` of two formulas stand.

/// The disjunctions of two formulas, of their complements, and of each with the complement of the other.
#[derive(Clone, Copy, Debug, PartialEq, Eq)]
pub struct Crossed {
    /// Either.
    pub m: u32,
    /// The complement of either.
    pub n: u32,
    /// The first, or the complement of the second.
    pub p: u32,
    /// The complement of the first, or the second.
    pub q: u32,
}
