//! Laws of truth values.
ghost use Rattle.formula_truth.specs.Joins.{AreJoins};

/// A conjunction is true just where each part is, and false just where some part is; a disjunction the other way round.
pub fn joining_law()
    ensures { AreJoins }
{}
