//! A level that is open.

/// How much stood when a level was opened.
#[derive(Clone, Copy, Debug, PartialEq, Eq)]
pub(crate) struct Level {
    /// The number of nodes of the table of formulas.
    pub nodes: u32,
    /// The number of its foralls.
    pub foralls: u32,
    /// The number of asserted nodes.
    pub asserted: usize,
}
