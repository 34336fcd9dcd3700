//! A name for a standing list.

/// Names a standing list: its length, and the serial of its last operation, or 0 where it is empty.
#[derive(Clone, Copy, Debug, PartialEq, Eq)]
pub struct Front {
    /// How many operations stand.
    pub length: u64,
    /// The serial of the last of them, or 0 where none stands.
    pub last: u64,
}
