//! Laws of values, each on a function that does nothing.
ghost use Rattle.formula_value.specs.Laws.{HasOneValue, IsSetByLeaves, StaysOfFormulas};

/// No formula is both Yes and No, and a formula has one value.
pub fn one_value_law()
    ensures { HasOneValue }
{}

/// A formula is Yes or No where each leaf that stands in it is.
pub fn set_law()
    ensures { IsSetByLeaves }
{}

/// A formula that is Yes or No stays so, where each leaf that is Yes or No does.
pub fn stays_law()
    ensures { StaysOfFormulas }
{}
