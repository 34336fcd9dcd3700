//! Patterns in flat rows, triggers, and which triggers are valid.
#![tactic(auto)]

pub mod pattern_row;
pub mod pattern_rows;
pub mod trigger;
pub mod triggers;
mod validity;

pub use pattern_row::PatternRow;
pub use pattern_rows::PatternRows;
pub use trigger::Trigger;
pub use triggers::Triggers;
