//! What the program is asked to do.
/// What the program is asked to do.
#[derive(Clone, Copy, Debug, PartialEq, Eq)]
pub enum Job {
    /// Answers a script by the matches of its triggers.
    Matches,
    /// Answers a script by a search.
    Solve,
    /// Writes the generated script of a size.
    Make {
        /// The size, from 2 to 4,000.
        count: u32,
    },
    /// Counts the matches of the generated script of a size.
    Drill {
        /// The size, from 2 to 4,000.
        count: u32,
    },
}
