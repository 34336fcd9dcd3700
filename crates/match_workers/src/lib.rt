//! Matchers in threads of their own, for a graph of terms.
#![tactic(auto)]

mod lists;
pub mod matching;
pub mod starts_matchers;
mod telling;
pub mod workers;

pub use matching::all_matches_by;
pub use starts_matchers::StartsMatchers;
pub use workers::Workers;
