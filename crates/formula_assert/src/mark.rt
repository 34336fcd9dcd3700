//! Where a search may go back to.

/// How many operations were done, how many nodes and foralls stood in the table of formulas, and how many nodes were
/// asserted.
#[derive(Clone, Copy, Debug, PartialEq, Eq)]
pub struct Mark {
    /// The number of operations that count as done.
    pub version: u64,
    /// The number of nodes of the table of formulas.
    pub nodes: u32,
    /// The number of its foralls.
    pub foralls: u32,
    /// The number of asserted nodes.
    pub asserted: usize,
}
