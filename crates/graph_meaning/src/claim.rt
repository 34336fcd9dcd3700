//! An item of work that is owed.

/// To match the live trigger with the number `trigger`, where its pattern at the place `start` among its roots matches the
/// very term `root`. All three are counted from 0.
#[derive(Clone, Copy, Debug, PartialEq, Eq)]
pub struct Claim {
    pub trigger: u32,
    pub start: u32,
    pub root: u32,
}
