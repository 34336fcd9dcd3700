//! A level.

/// What stood when a level was opened: how many sorts, functions and definitions.
#[derive(Clone, Copy, Debug, PartialEq, Eq)]
pub struct Level {
    pub sorts: u32,
    pub functions: u32,
    pub definitions: u32,
}
