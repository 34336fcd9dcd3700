//! Decides what stands in an assertion stack by the plain search, with rounds of instances of foralls.
//!
//! [`check`] answers whether some branch is a way out, and leaves the stack as it was. A branch asserts the one part
//! left over of a disjunction again and again, and then splits the first open disjunction: its first part left over is
//! asserted, and where that is lost, it is struck and refuted. Where none is open and a forall is live, a round enters
//! the new instances, and the search goes on with them. The values of all formulas are kept as the stack comes to hold
//! more and goes back, so a step costs what follows from it, and an instance its body, and not the size of the table.
#![tactic(auto)]

mod aside;
pub mod decide;
mod kept;
mod live;
pub mod outcome;
mod round;
mod search;
pub mod why;

pub use decide::check;
pub use outcome::{Kept, Outcome};
pub use why::Why;
