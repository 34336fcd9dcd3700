//! A union of two classes.

/// Two terms whose classes were joined, each the leader of its class at that moment.
#[derive(Clone, Copy, Debug, PartialEq, Eq)]
pub struct Union {
    pub left: u32,
    pub right: u32,
}
