//! The value of a node by the counts of its places.
ghost use Rattle.std.specs.Prelude.{◌≡◌, ◌<◌, length, map};
ghost use Rattle.search_board.specs.Board.{kind_at, truth_at, places_at};
ghost use Rattle.search_board.specs.Values.{value_of};
ghost use Rattle.search_board.specs.Places.{counts_of};
ghost use Rattle.search_values.specs.Settled.{told_by};
ghost use Rattle.search_values.specs.Counted.{value_by};

use formula_truth::Truth;
use search_board::{Board, Counts, Kind};

/// The value of a node with so many places and these counts.
fn value_by_counts(kind: Kind, truth: Truth, len: u32, counts: Counts) -> Truth
    ensures { result ≡ value_by kind truth len counts }
{
    match kind {
        Kind::Leaf => truth,
        Kind::And => {
            if counts.no > 0 {
                Truth::No
            } else if counts.yes == len {
                Truth::Yes
            } else {
                Truth::Unset
            }
        }
        Kind::Or => {
            if counts.yes > 0 {
                Truth::Yes
            } else if counts.no == len {
                Truth::No
            } else {
                Truth::Unset
            }
        }
    }
}

/// The value of a node by what its places were told. That of a leaf is the one that it has.
pub(crate) fn value_at(board: &Board, n: u32) -> Truth
    requires { n < length board.now.kinds }
    ensures { result ≡ value_of (kind_at board.now n) (told_by (places_at board.now n)) (truth_at board.now n) }
{
    value_by_counts(
        board.kind(n),
        board.truth(n),
        board.places(n),
        board.counts(n),
    )
}
