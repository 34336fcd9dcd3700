//! Where a list begins.

use smt_text::Place;

/// Where a list begins: the places of its parenthesis and its head.
#[derive(Clone, Copy, Debug, PartialEq, Eq)]
pub struct Heading {
    pub paren: Place,
    pub head: Place,
}
