//! What stays the same while a term is elaborated.

use crate::inside::Inside;
use smt_names::SessionState;
use smt_text::Tree;
use std::alloc::Global;

/// What stays the same while a term is elaborated: where memory comes from, what is declared, the command in which the
/// term stands, and what it stands inside.
#[derive(Clone, Copy)]
pub struct Context<'a> {
    pub alloc: Global,
    pub state: &'a SessionState,
    pub tree: &'a Tree,
    pub inside: Inside,
}
