//! Inverted paths: from a class that was joined up to the roots whose patterns may match anew.
#![tactic(auto)]

mod claim_key;
pub mod claims;
mod climb;
mod link;
mod link_list;
mod occurrence;
mod occurrences;
pub mod path_index;
mod step;
mod task;
mod task_list;
mod ways;

pub use claims::Claims;
pub use path_index::PathIndex;
