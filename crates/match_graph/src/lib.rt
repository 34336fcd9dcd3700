//! A graph of terms with the codes of its live triggers, and all matches of each.
#![tactic(auto)]

mod firsts;
pub mod graph;
pub mod matchers;
mod matches;
mod roots;
pub mod whole;

pub use graph::MatchingGraph;
pub use matchers::{Alone, Matchers};
pub use whole::whole_batch;
