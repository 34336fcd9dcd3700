//! The machine that matches a forest of codes against a graph.
#![tactic(auto)]

mod ahead;
mod anchor;
pub mod answer;
pub mod batch;
mod choices;
mod climb;
pub mod entry_matches;
mod found;
pub mod gather;
pub mod holds;
mod home;
pub mod item;
mod joining;
pub mod laws;
mod look;
pub mod roots;
pub mod run;
mod task;
pub mod tuple_list;
mod values;
mod walk;

pub use answer::Answer;
pub use batch::Batch;
pub use entry_matches::EntryMatches;
pub use item::Item;
pub use tuple_list::TupleList;
