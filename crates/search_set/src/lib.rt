//! Sets of numbers below a bound, whose least member is found without a scan.
//!
//! A [`LeastSet`] is a tree of marks. A change and a search each take as many steps as the tree has levels.
#![tactic(auto)]

pub mod least_set;
pub mod tree;

pub use least_set::LeastSet;
