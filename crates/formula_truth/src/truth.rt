//! What is known of a formula.
ghost use Rattle.std.specs.Prelude.{◌≡◌};
ghost use Rattle.formula_truth.specs.Truths.{is_yes_value, is_no_value, is_set_value};

/// What is known of a formula: that it is true, that it is false, or neither.
#[derive(Clone, Copy, Debug, PartialEq, Eq)]
pub enum Truth {
    /// It is true.
    Yes,
    /// It is false.
    No,
    /// Neither is known.
    Unset,
}

/// Whether the formula is known to be true.
pub fn is_yes(truth: Truth) -> bool
    ensures { result ≡ is_yes_value truth }
{
    match truth {
        Truth::Yes => true,
        Truth::No | Truth::Unset => false,
    }
}

/// Whether the formula is known to be false.
pub fn is_no(truth: Truth) -> bool
    ensures { result ≡ is_no_value truth }
{
    match truth {
        Truth::No => true,
        Truth::Yes | Truth::Unset => false,
    }
}

/// Whether the formula is known to be true or known to be false.
pub fn is_set(truth: Truth) -> bool
    ensures { result ≡ is_set_value truth }
{
    match truth {
        Truth::Yes | Truth::No => true,
        Truth::Unset => false,
    }
}
