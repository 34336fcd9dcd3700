//! The matching that is due: claims that operations give and that matching discharges, over levels.
#![tactic(auto)]

mod asked;
mod batching;
mod claim_key;
mod claim_list;
mod claim_log;
pub mod event;
mod noted;
pub mod owed;
mod root_symbol;
pub mod starts;

pub use event::Event;
pub use owed::Owed;
pub use starts::Starts;
