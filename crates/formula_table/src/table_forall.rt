//! A forall of the table of formulas.

use crate::body::Body;
use graph_trigger::Triggers;

/// A forall that was entered.
#[derive(Drop)]
pub struct TableForall {
    /// How many variables it has, at most 32.
    pub variables: u32,
    /// Its triggers. Each has the forall's number, its own place from 0, and as many variables.
    pub triggers: Triggers,
    /// Its body, over its variables and without foralls.
    pub body: Body,
}
