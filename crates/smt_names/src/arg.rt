//! An argument.

use crate::value::Value;
use smt_text::Place;

/// An argument: the place of its first token, and what it stands for.
#[derive(Clone, Copy, Debug, PartialEq, Eq)]
pub struct Arg {
    pub place: Place,
    pub value: Value,
}
