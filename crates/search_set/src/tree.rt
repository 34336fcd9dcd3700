//! A tree of marks: an inner mark is set where one of the two below it is.
ghost use Rattle.std.specs.Prelude.{◌≡◌, ℕ, ◌+◌, ◌*◌, ◌^◌, ◌<◌, ◌≤◌, Bool, false, true, ◌||◌, length, slice_index_or, slice_set, drop, if◌then◌else◌};
ghost use Rattle.search_set.specs.Tree.{IsTree, IsLeastFrom};

/// Whether one of the two marks below is set.
fn is_set_below(marks: &[bool], at: usize) -> bool
    requires fits { 2 * at + 1 < 2 ^ 64 }
    requires within { 2 * at + 1 < length marks.now }
    ensures { result ≡ (slice_index_or marks.now (2 * at) false || slice_index_or marks.now (2 * at + 1) false) }
{
    marks[2 * at] || marks[2 * at + 1]
}

/// The first of the two places below, where its mark is set, else the second.
fn first_below(marks: &[bool], at: usize) -> usize
    requires fits { 2 * at + 1 < 2 ^ 64 }
    requires within { 2 * at + 1 < length marks.now }
    ensures { result ≡ (if slice_index_or marks.now (2 * at) false then 2 * at else 2 * at + 1) }
{
    if marks[2 * at] { 2 * at } else { 2 * at + 1 }
}

/// Sets or clears a mark at the bottom, and the marks above it.
pub(crate) fn set_mark(marks: &mut [bool], height: u32, room: usize, number: usize, on: bool)
    requires tree { IsTree marks.old height }
    requires room { room ≡ 2 ^ height }
    requires few { room < 2 ^ 32 }
    requires within { number < room }
    ensures tree { IsTree marks.new height }
    ensures bottom { drop room marks.new ≡ slice_set (drop room marks.old) number on }
{
    let mut at = room + number;
    marks[at] = on;
    while at > 1 {
        at /= 2;
        let joined = is_set_below(marks, at);
        marks[at] = joined;
    }
}

/// The place of the first mark at the bottom.
pub(crate) fn first_mark(marks: &[bool], height: u32, room: usize) -> usize
    requires tree { IsTree marks.now height }
    requires room { room ≡ 2 ^ height }
    requires few { room < 2 ^ 32 }
    requires some { slice_index_or marks.now 1 false ≡ true }
    ensures within { result < room }
    ensures first { IsLeastFrom marks.now room result }
{
    let mut at = 1usize;
    for _level in 0..height {
        at = first_below(marks, at);
    }
    at - room
}
