//! The top call of the program: a script is read and answered, command by command, or the generated script of a size is written or its matches are counted.
#![tactic(auto)]

mod alone;
mod count;
mod counting;
mod error_line;
mod generated;
mod laws;
mod listing;
mod program;
mod reply;
mod response;
mod script;
mod situation;
mod status;
mod unanswered;
mod verdict;
mod work;

pub use alone::run_alone;
pub use laws::{front_law, one_answer, sat_is_right, unsat_is_right};
pub use program::{report, run};
pub use status::Status;
