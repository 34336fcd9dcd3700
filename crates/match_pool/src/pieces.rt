//! What the matchers of a batch found.
use match_machine::Answer;

/// Each item number of the batch stands exactly once: in an answer, among the starved, for which there was no memory, or
/// among those that were shut out.
#[derive(Drop)]
pub struct Pieces {
    pub answers: Vec<Answer>,
    /// The number of the matcher that ran it, for each answer.
    pub ran: Vec<u32>,
    pub starved: Vec<u32>,
    pub shut: Vec<u32>,
}
