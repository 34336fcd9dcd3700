//! Laws of elaboration: what it makes is a formula.
#![tactic(auto)]

pub mod laws;
