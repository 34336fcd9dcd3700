//! Lists that stand in other lists.
#![tactic(auto)]

pub mod short_list;

pub use short_list::ShortList;
