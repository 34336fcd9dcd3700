//! The standing assertions of a script: a graph of terms, the table of formulas, which nodes are asserted, and levels.
#![tactic(auto)]

pub mod assert_nodes;
pub mod asserted_nodes;
pub mod assertion_graph;
pub mod assertion_stack;
pub mod laws;
mod level;
pub mod mark;
mod take_back;

pub use assertion_graph::AssertionGraph;
pub use assertion_stack::AssertionStack;
pub use mark::Mark;
