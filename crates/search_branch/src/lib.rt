//! A branch of the search: the values of all formulas by what an assertion stack holds, kept as it comes to hold more.
//!
//! [`BranchValues`] goes along with a stack. It asserts and refutes formulas in it, says what the search does next, and goes
//! back to what it was when a level was opened. A change costs what follows from it and not the size of the table.
#![tactic(auto)]

pub mod branch_values;
mod build;
mod leaf;
mod next;
pub mod step;
mod tell;

pub use branch_values::BranchValues;
pub use step::Step;
