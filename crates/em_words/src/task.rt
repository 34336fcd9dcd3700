//! How scripts are answered.
/// How a script is answered: what `check-sat` is answered by.
#[derive(Clone, Copy, Debug, PartialEq, Eq)]
pub enum Task {
    /// By the matches of each live trigger.
    Matches,
    /// By how a search ends, which may spend so many rounds of instances.
    Solve { rounds: u32 },
}
