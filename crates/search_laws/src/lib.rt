//! The plain search over formulas, as definitions, and its laws.
#![tactic(auto)]

pub mod laws;
