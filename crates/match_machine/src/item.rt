//! Items of matching work.
use graph_terms::Numbers;

/// Asks for the matches of entries of one tree that begin at one term.
#[derive(Debug, Drop)]
pub struct Item {
    pub number: u32,
    /// The tree of the entries.
    pub tree: u32,
    /// The term at which the matches begin.
    pub root: u32,
    /// The entries, rising.
    pub wanted: Numbers,
}
