//! Where going on ended.

use smt_names::Value;

/// Where going on ended.
#[derive(Clone, Copy, Debug, PartialEq, Eq)]
pub enum Walked {
    /// The value of the whole is there.
    Whole(Value),
    /// A forall outside foralls and definitions stands at a place, and its list ends before another place.
    Universal { at: u32, after: u32 },
}
