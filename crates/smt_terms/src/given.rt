//! What came of giving a value.

use smt_text::Place;

/// What came of giving a value to the innermost open list.
#[derive(Clone, Copy, Debug, PartialEq, Eq)]
pub enum Given {
    /// No list is open: it is the value of the whole.
    Whole,
    /// The list took it, and elaboration goes on at a place.
    At(u32),
    /// It is the value of the list too, whose place is the first, and the token behind it the second.
    Outer { at: Place, next: u32 },
}
