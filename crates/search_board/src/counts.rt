//! How many places of a node there are of each kind.
ghost use Rattle.std.specs.Prelude.{◌≡◌, ◌<◌, ◌≤◌, ◌+◌, ◌-◌, ◌^◌, if◌then◌else◌};
ghost use Rattle.search_board.specs.Places.{count_after, count_more, CanCount, HasRoom, one_if};

use crate::place::{Place, is_fresh, is_left};
use formula_truth::{is_no, is_yes};

/// How many places of a node there are of each kind.
#[derive(Clone, Copy, Debug)]
pub struct Counts {
    /// Places whose part is Yes.
    pub yes: u32,
    /// Places whose part is No.
    pub no: u32,
    /// Places left over.
    pub left: u32,
    /// Places left over whose part isn't asserted.
    pub fresh: u32,
}

/// A count without one of the one kind and with one of the other.
fn counted(count: u32, old: bool, new: bool) -> u32
    requires old { one_if old ≤ count }
    requires new { count - one_if old + one_if new < 2 ^ 32 }
    ensures { result ≡ count - one_if old + one_if new }
{
    match (old, new) {
        (true, false) => count - 1,
        (false, true) => count + 1,
        (true, true) | (false, false) => count,
    }
}

/// The counts, where one place is changed.
pub(crate) fn counts_with(counts: Counts, old: Place, new: Place) -> Counts
    requires { CanCount counts old new }
    ensures { result ≡ count_after counts old new }
{
    Counts {
        yes: counted(counts.yes, is_yes(old.told), is_yes(new.told)),
        no: counted(counts.no, is_no(old.told), is_no(new.told)),
        left: counted(counts.left, is_left(old), is_left(new)),
        fresh: counted(counts.fresh, is_fresh(old), is_fresh(new)),
    }
}

/// A count with one more, if the test holds.
fn one_more(count: u32, new: bool) -> u32
    requires { count + 1 < 2 ^ 32 }
    ensures { result ≡ count + one_if new }
{
    if new { count + 1 } else { count }
}

/// The counts with one place more.
pub(crate) fn counts_more(counts: Counts, new: Place) -> Counts
    requires { HasRoom counts }
    ensures { result ≡ count_more counts new }
{
    Counts {
        yes: one_more(counts.yes, is_yes(new.told)),
        no: one_more(counts.no, is_no(new.told)),
        left: one_more(counts.left, is_left(new)),
        fresh: one_more(counts.fresh, is_fresh(new)),
    }
}
