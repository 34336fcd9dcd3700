//! A forall of a formula.

use graph_trigger::Triggers;

/// A forall of a formula.
#[derive(Debug, Drop)]
pub struct DraftForall {
    /// How many variables it has, at most 32.
    pub variables: u32,
    /// The node of its body.
    pub body: u32,
    /// Its triggers, of which each has as many variables.
    pub triggers: Triggers,
}
