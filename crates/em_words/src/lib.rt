//! Reads the words of the command line.
#![tactic(auto)]

mod asked;
mod fault;
mod given;
mod job;
mod laws;
mod number;
mod task;
mod words;
mod work;

pub use asked::{Asked, read_asked};
pub use fault::WordsFault;
pub use job::Job;
pub use laws::hyphen_law;
pub use task::Task;
pub use words::{Words, read_words};
pub use work::{Work, read_work};

#[cfg(test)]
mod tests;
