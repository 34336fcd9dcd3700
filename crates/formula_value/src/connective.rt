//! Values of conjunctions and disjunctions, by the values of their parts.
ghost use Rattle.std.specs.Prelude.{◌≡◌, ◌<◌, length, All};
ghost use Rattle.formula_truth.specs.Truths.{and_of, or_of, all_of, some_of};
ghost use Rattle.formula_value.specs.ByParts.{values_of};

use formula_truth::Truth;

/// What is known of a conjunction of two.
fn both(one: Truth, other: Truth) -> Truth
    ensures { result ≡ and_of one other }
{
    match one {
        Truth::No => Truth::No,
        Truth::Yes => other,
        Truth::Unset => {
            if other == Truth::No {
                Truth::No
            } else {
                Truth::Unset
            }
        }
    }
}

/// What is known of a disjunction of two.
fn either(one: Truth, other: Truth) -> Truth
    ensures { result ≡ or_of one other }
{
    match one {
        Truth::Yes => Truth::Yes,
        Truth::No => other,
        Truth::Unset => {
            if other == Truth::Yes {
                Truth::Yes
            } else {
                Truth::Unset
            }
        }
    }
}

/// What is known of a conjunction of parts with these values.
pub(crate) fn conjunction(parts: &[u32], values: &[Truth]) -> Truth
    requires { All (λ part. part < length values.now) parts.now }
    ensures { result ≡ all_of (values_of values.now parts.now) }
{
    let mut all = Truth::Yes;
    for part in parts {
        all = both(all, values[*part as usize]);
    }
    all
}

/// What is known of a disjunction of parts with these values.
pub(crate) fn disjunction(parts: &[u32], values: &[Truth]) -> Truth
    requires { All (λ part. part < length values.now) parts.now }
    ensures { result ≡ some_of (values_of values.now parts.now) }
{
    let mut some = Truth::No;
    for part in parts {
        some = either(some, values[*part as usize]);
    }
    some
}
