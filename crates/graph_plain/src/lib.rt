//! The plain graph of terms, which looks at all pairs of terms until nothing changes, and the listing of matches that
//! tries all tuples. Both are slow, and say what every faster graph and listing has to answer.
#![tactic(auto)]

pub mod graph;
mod labels;
pub mod listing;
mod pick;

pub use graph::PlainGraph;
pub use listing::list_matches;
