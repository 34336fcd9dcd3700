//! Instances of foralls that are done, and which matches are new.
#![tactic(auto)]

mod candidates;
pub mod done_instances;
mod done_keys;
pub mod find_new;
pub mod instance;
mod key_set;
pub mod laws;

pub use done_instances::DoneInstances;
pub use find_new::new_instances;
pub use instance::Instance;
