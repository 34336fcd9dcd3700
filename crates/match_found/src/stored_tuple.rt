//! A match that was found.
use graph_terms::Numbers;

/// A tuple of terms under the number of its trigger.
#[derive(Debug, Drop)]
pub struct StoredTuple {
    pub trigger: u32,
    pub tuple: Numbers,
}
