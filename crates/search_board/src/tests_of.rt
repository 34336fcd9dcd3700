//! Which disjunctions are units, open or stuck, by their counts.
ghost use Rattle.std.specs.Prelude.{◌≡◌};
ghost use Rattle.search_board.specs.Places.{unit_test, open_test, stuck_test};

use crate::counts::Counts;
use crate::kind::Kind;
use formula_truth::{Truth, is_yes};

/// An asserted disjunction without a Yes part, with one part left over that isn't asserted.
pub(crate) fn is_unit(kind: Kind, truth: Truth, asserted: bool, counts: Counts) -> bool
    ensures { result ≡ unit_test kind truth asserted counts }
{
    match kind {
        Kind::Or => asserted && !is_yes(truth) && counts.left == 1 && counts.fresh == 1,
        Kind::Leaf | Kind::And => false,
    }
}

/// An asserted disjunction without a Yes part.
pub(crate) fn is_open(kind: Kind, truth: Truth, asserted: bool) -> bool
    ensures { result ≡ open_test kind truth asserted }
{
    match kind {
        Kind::Or => asserted && !is_yes(truth),
        Kind::Leaf | Kind::And => false,
    }
}

/// An asserted disjunction with nothing left over.
pub(crate) fn is_stuck(kind: Kind, asserted: bool, counts: Counts) -> bool
    ensures { result ≡ stuck_test kind asserted counts }
{
    match kind {
        Kind::Or => asserted && counts.left == 0,
        Kind::Leaf | Kind::And => false,
    }
}
