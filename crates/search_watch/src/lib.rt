//! Which literals may have another value after unions of classes or after one more difference.
//!
//! A literal is an equation of two terms, or an atom, which is an equation of a term and true or false. [`Watch`] goes
//! through listed unions and finds what to look at; [`equation_value`] and [`atom_value`] say what is known of one;
//! the laws in [`laws`] say that what was found is enough. A watch is made of a graph, takes ends of literals, and follows
//! the graph. Each change of a watch is noted, and it goes back to any mark that was taken.
#![tactic(auto)]

mod between;
pub mod chains;
pub mod evaluate;
pub mod laws;
pub mod link;
pub mod mark;
pub mod noted_chains;
pub mod serve;
pub mod watch;

pub use chains::Chains;
pub use evaluate::{atom_value, equation_value};
pub use link::Link;
pub use mark::Mark;
pub use noted_chains::NotedChains;
pub use watch::Watch;
