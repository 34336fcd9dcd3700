//! An instance of a forall.
use graph_terms::Numbers;

/// An instance: a forall, by its number, and a term for each of its variables.
#[derive(Debug, Drop)]
pub struct Instance {
    /// The number of the forall.
    pub forall: u32,
    /// The terms, in the order of the variables.
    pub tuple: Numbers,
}
