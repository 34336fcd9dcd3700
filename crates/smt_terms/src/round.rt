//! A list that opens.

use smt_text::Place;

/// A list that opens: the places of its parenthesis and its head, and the token behind it.
#[derive(Clone, Copy, Debug, PartialEq, Eq)]
pub struct Round {
    pub paren: Place,
    pub head: Place,
    pub after: u32,
}
