//! Random scripts with foralls, and what a plain search answers to them. Tests alone use this crate.
#![tactic(auto)]

mod author;
mod draft;
mod known;
mod marks;
mod matching;
mod node;
mod random;
mod row;
pub mod script;
mod search;
mod world;

pub use script::{DECLARED, Script, script_of};
