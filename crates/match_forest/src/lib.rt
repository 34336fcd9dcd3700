//! Codes that share what they begin with.
#![tactic(auto)]

pub mod forest;
mod insertion;
pub mod laws;
mod roots;

pub use forest::CodeForest;
