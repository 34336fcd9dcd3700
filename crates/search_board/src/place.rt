//! Places of parts in a node.
ghost use Rattle.std.specs.Prelude.{◌≡◌};
ghost use Rattle.search_board.specs.Places.{is_left_place, is_fresh_place};

use formula_truth::{Truth, is_no};

/// What a place of a node was told of its part.
#[derive(Clone, Copy, Debug)]
pub struct Place {
    /// The value of the part.
    pub told: Truth,
    /// Whether the part is asserted.
    pub taken: bool,
    /// Whether the place is struck.
    pub struck: bool,
}

/// Whether the part is left over.
pub fn is_left(place: Place) -> bool
    ensures { result ≡ is_left_place place }
{
    !is_no(place.told) && !place.struck
}

/// Whether the part is left over and isn't asserted.
pub fn is_fresh(place: Place) -> bool
    ensures { result ≡ is_fresh_place place }
{
    is_left(place) && !place.taken
}
