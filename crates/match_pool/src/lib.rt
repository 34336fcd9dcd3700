//! Matching of a batch by matchers in threads of their own.
#![tactic(auto)]

mod deal;
mod findings;
pub mod gate;
mod matcher;
pub mod pieces;
pub mod pool;
mod ring;
mod share;
mod thief;

pub use gate::{Gate, NoGate};
pub use pieces::Pieces;
