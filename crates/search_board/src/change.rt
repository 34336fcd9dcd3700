//! The changes of a board, with what undoes each.
use crate::place::Place;
use formula_truth::Truth;

/// What was there before a change.
#[derive(Drop)]
pub enum Change {
    /// There was one node less.
    Entered,
    /// A node had this value.
    Valued { n: u32, old: Truth },
    /// A node was asserted, or not.
    Asserted { n: u32, old: bool },
    /// A place of a node was told this.
    Told { n: u32, i: u32, old: Place },
}
