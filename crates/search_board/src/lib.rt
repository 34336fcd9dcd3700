//! A board of nodes: the value of each, what the places of its parts were told, and at hand the
//! first unit, open and stuck disjunction. Every change tells what undoes it ([`Change`]).
#![tactic(auto)]

pub mod board;
pub mod change;
pub mod counts;
pub mod kind;
pub mod place;
mod sets;
pub mod tests_of;
pub mod undo;

pub use board::Board;
pub use change::Change;
pub use counts::Counts;
pub use kind::Kind;
pub use place::Place;
