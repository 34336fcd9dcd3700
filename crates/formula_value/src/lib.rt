//! Values of the formulas of a table: Yes, No or Unset, by a graph of terms and by what else is known.
//!
//! [`value`] answers for one formula, [`values`] for all of them. Nothing recurses on the depth of a formula.
#![tactic(auto)]

mod connective;
pub mod evaluate;
pub mod facts;
pub mod laws;
mod leaf;

pub use evaluate::{value, values};
pub use facts::Facts;
