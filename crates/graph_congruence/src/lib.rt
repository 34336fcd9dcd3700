//! Terms in classes, closed under congruence, with a way back to any operation that stands.
#![tactic(auto)]

pub mod clash;
pub mod graph;
pub mod share;

pub use clash::Clash;
pub use graph::Graph;
pub use graph_classes::{Added, Unions};
