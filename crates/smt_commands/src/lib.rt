//! Commands of a script: what each one answers, and the state after it.
#![tactic(auto)]

mod command;
mod declaring;
mod info;
pub mod laws;
mod levels;
mod named;
mod parameters;
mod parts;
mod reading;
mod session;
mod terms;

pub use command::Command;
pub use info::Info;
pub use session::Session;
