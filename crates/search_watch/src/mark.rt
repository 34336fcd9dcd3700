//! Where a search may go back to.

/// How many changes of the chains of literals, and of those of differences, were noted.
#[derive(Clone, Copy, Debug, PartialEq, Eq)]
pub struct Mark {
    pub literals: u64,
    pub differs: u64,
}
