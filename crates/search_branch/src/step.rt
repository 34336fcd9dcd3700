//! The next step of a search.

/// What a search does next.
#[derive(Clone, Copy, Debug, PartialEq, Eq)]
pub enum Step {
    /// Nothing: there is a conflict.
    Lost,
    /// It asserts the one part left over of the first disjunction that has one.
    Assert { part: u32 },
    /// It splits the first open disjunction at its first place left over.
    Split { node: u32, place: u32, part: u32 },
    /// Nothing: no disjunction is open.
    WayOut,
}
