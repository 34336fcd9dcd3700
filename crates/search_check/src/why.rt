//! Why a search ends open.

/// Why a search ends open.
#[derive(Clone, Copy, Debug, PartialEq, Eq)]
pub enum Why {
    /// No instance is new.
    Settled,
    /// Some instance is new, and each round is spent.
    RoundsSpent,
}
