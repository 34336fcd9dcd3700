//! Trees of labels, and entries at their nodes.
#![tactic(auto)]

pub mod entry;
pub mod entry_table;
pub mod index;
pub mod label;
pub mod laws;
pub mod mark;
pub mod node_table;
mod number_list;

pub use entry::Entry;
pub use entry_table::EntryTable;
pub use index::Index;
pub use label::Label;
pub use mark::Mark;
pub use node_table::NodeTable;
