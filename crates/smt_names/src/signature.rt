//! The sorts of a declared function.

use graph_terms::Numbers;

/// The sorts of the arguments of a declared function, and that of its value. 0 is Bool, and the declared sorts count from 1.
#[derive(Debug, Drop)]
pub struct Signature {
    pub arguments: Numbers,
    pub sort: u32,
}
