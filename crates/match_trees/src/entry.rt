//! Entries.

/// A trigger, and the place among its roots of the pattern that a way in the trees is of. Both are counted from 0.
#[derive(Clone, Copy, Debug, PartialEq, Eq)]
pub struct Entry {
    pub trigger: u32,
    pub start: u32,
}
