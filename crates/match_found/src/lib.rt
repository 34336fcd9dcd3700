//! The matches that were found, trigger by trigger, and how they are listed.
#![tactic(auto)]

pub mod found_matches;
mod listing;
pub mod stored_tuple;

pub use found_matches::FoundMatches;
