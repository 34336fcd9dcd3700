//! Patterns as instructions for a matching machine.
#![tactic(auto)]

pub mod code;
pub mod instr;
pub mod laws;
mod layout;

pub use code::Code;
pub use instr::Instr;
pub use layout::compile;
