//! What operations do to the matches.
#![tactic(auto)]

pub mod laws;
