//! What is asked for.

/// An entry that is wanted, with its tree, at a root. In the order of trees, then of roots, then of entries.
#[derive(Clone, Copy, Debug, PartialEq, Eq, PartialOrd, Ord)]
pub struct Asked {
    pub tree: u32,
    pub root: u32,
    pub entry: u32,
}
