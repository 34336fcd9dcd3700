//! What a search answers.
use crate::why::Why;
use graph_terms::Numbers;

/// What is kept of the branch that a search ends in.
#[derive(Debug, Drop)]
pub struct Kept {
    /// The leader of each term, by number.
    pub leaders: Numbers,
    /// The asserted nodes, in the order in which they were asserted.
    pub asserted: Numbers,
    /// How many instances each round entered on the way there.
    pub rounds: Numbers,
}

/// How a search ends.
#[derive(Debug, Drop)]
pub enum Outcome {
    /// There is no way out: what is asserted cannot be true together.
    Unsat,
    /// There is one.
    Sat { kept: Kept },
    /// It is not known: the search ends in a branch that is open.
    Unknown { why: Why, kept: Kept },
}
