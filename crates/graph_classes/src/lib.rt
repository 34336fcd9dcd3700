//! The parts of a graph of terms: classes that are closed under congruence, the lists that questions read, and the
//! operations that stand, each change noted in a trail that goes back to any mark.
#![tactic(auto)]

pub mod added;
mod adding;
pub mod change;
pub mod classes;
mod joining;
mod listing;
pub mod lists;
pub mod log;
mod merging;
mod opening;
pub mod parts;
pub mod place;
pub mod rising;
mod settling;
pub mod signatures;
mod signing;
pub mod term_list;
pub mod unions;

pub use added::Added;
pub use change::Change;
pub use classes::Classes;
pub use lists::Lists;
pub use log::Log;
pub use parts::Parts;
pub use place::Place;
pub use rising::Rising;
pub use signatures::Signatures;
pub use term_list::TermList;
pub use unions::Unions;
