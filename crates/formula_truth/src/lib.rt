//! Truth values of formulas: what is known of one, and of a conjunction and a disjunction of some.
#![tactic(auto)]

pub mod laws;
pub mod truth;

pub use truth::{Truth, is_no, is_set, is_yes};
