//! A split whose first half is under way.
use formula_assert::Mark;

/// What a search keeps of a split while its first half is under way.
#[derive(Clone, Copy, Debug, PartialEq, Eq)]
pub(crate) struct Aside {
    /// The disjunction.
    pub node: u32,
    /// The place of the part that was asserted.
    pub place: u32,
    /// The part.
    pub part: u32,
    /// What to go back to.
    pub mark: Mark,
    /// How many places were struck.
    pub struck: usize,
    /// How many instances were done.
    pub done: usize,
    /// How many rounds were spent.
    pub spent: usize,
}
