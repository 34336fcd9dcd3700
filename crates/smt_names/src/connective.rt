//! The names of the core theory.

/// What a name of the core theory makes of its parts.
#[derive(Clone, Copy, Debug, PartialEq, Eq)]
pub enum Connective {
    True,
    False,
    Not,
    And,
    Or,
    /// `=>`.
    Implies,
    Xor,
    /// `=`.
    Equals,
    Distinct,
    Ite,
}
