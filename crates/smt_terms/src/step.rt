//! What a step of elaboration did.

use smt_names::Value;

/// What a step of elaboration did.
#[derive(Clone, Copy, Debug, PartialEq, Eq)]
pub enum Step {
    /// It goes on at a place.
    At(u32),
    /// The value of the whole is there.
    Whole(Value),
    /// It stands before a forall at a place outside foralls and definitions, whose list ends before another place.
    Universal { at: u32, after: u32 },
}
