//! A bound name with what finds it.

use crate::bound::Bound;

/// A bound name, the number of its name, and the place of the binding of this name before it.
#[derive(Drop)]
pub(crate) struct Linked {
    pub(crate) bound: Bound,
    pub(crate) number: u32,
    pub(crate) earlier: Option<usize>,
}
