//! Values of formulas by number, kept from the leaves up under changes, with levels.
//!
//! [`NodeValues`] has the value of each node, and the first unit, open and stuck disjunction. A change costs
//! what follows from it and no more; a pop takes back what its level did, without memory.
#![tactic(auto)]

pub mod changing;
mod entering;
pub mod left;
pub mod node_values;
pub mod noted;
pub mod telling;
pub mod up;
pub mod value;
pub mod wiring;

pub use node_values::NodeValues;
pub use noted::Noted;
pub use up::Up;
pub use wiring::Wiring;
