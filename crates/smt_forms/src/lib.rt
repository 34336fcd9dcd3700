//! What the forms of formulas and the applications of names put into a formula.
#![tactic(auto)]

mod applied;
mod chains;
mod checks;
mod connected;
mod crossed;
mod equality;
mod forms;
mod ite;
mod moved;
mod parts;
mod put;
mod site;

pub use applied::apply;
pub use put::{put_node, put_row};
pub use site::Site;
