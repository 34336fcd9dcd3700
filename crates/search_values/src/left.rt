//! The first part left over.
ghost use Rattle.std.specs.Prelude.{◌≡◌, ℕ, ◌<◌, true, false, length, count_by};
ghost use Rattle.search_board.specs.Places.{is_left_place};
ghost use Rattle.search_board.specs.Board.{places_at, place_at};

use search_board::Board;
use search_board::place::is_left;

/// The first place of a node that is left over by what the places were told.
pub(crate) fn first_left(board: &Board, n: u32) -> u32
    requires stands { n < length board.now.kinds }
    requires some { 0 < count_by is_left_place (places_at board.now n) }
    ensures within { result < length (places_at board.now n) }
    ensures left { is_left_place (place_at board.now n result) ≡ true }
    ensures first { (j : ℕ) → j < result → is_left_place (place_at board.now n j) ≡ false }
{
    for i in 0..board.places(n) {
        if is_left(board.place(n, i)) {
            return i;
        }
    }
    unreachable!()
}
