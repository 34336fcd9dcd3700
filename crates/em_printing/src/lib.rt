//! Terms as text.
#![tactic(auto)]

mod printed;
mod term_writer;

pub use printed::{push_number, push_printed};
pub use term_writer::{TermStop, write_term};
