//! Where elaboration goes on.

use smt_names::Value;

/// Where elaboration goes on, or the value of the whole.
#[derive(Clone, Copy, Debug, PartialEq, Eq)]
pub enum Next {
    At(u32),
    Whole(Value),
}
