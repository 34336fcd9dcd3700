//! Patterns: the rows of a formula that are patterns, and the triggers that are made of them.
#![tactic(auto)]

mod keeping;
mod marks;
mod roots;
mod sizes;
mod triggers;

pub use roots::root_of_pattern;
pub use triggers::{count_of, trigger_of_roots};
