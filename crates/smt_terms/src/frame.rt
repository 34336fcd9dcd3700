//! An open list.

use crate::work::Work;
use smt_text::Place;

/// An open list: the places of its parenthesis and its head, the token behind it, and what it goes on with.
#[derive(Drop)]
pub struct Frame {
    pub paren: Place,
    pub head: Place,
    pub after: u32,
    pub work: Work,
}
