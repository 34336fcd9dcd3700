//! Claims as keys of a map.

/// A claim as a key: its three numbers.
#[derive(Clone, Copy, Debug, PartialEq, Eq, Hash)]
pub struct ClaimKey {
    pub trigger: u32,
    pub start: u32,
    pub root: u32,
}
