//! A bound name.

use crate::stands::Stands;
use graph_terms::Name;

/// A bound name, and what it stands for.
#[derive(Debug, Drop)]
pub struct Bound {
    pub name: Name,
    pub stands: Stands,
}
