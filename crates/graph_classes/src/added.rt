//! What adding a row answers.

use crate::unions::Unions;

/// The term of a row that was added.
#[derive(Debug, Drop)]
pub struct Added {
    /// Its number.
    pub term: u32,
    /// Whether the row was new. Where it was not, nothing was done.
    pub fresh: bool,
    /// The unions of classes that followed, in order.
    pub unions: Unions,
}
