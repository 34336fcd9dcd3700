//! A definition.

use crate::value::Value;
use formula_draft::FormulaDraft;
use graph_terms::Numbers;

/// What a defined name stands for: the sorts of its parameters, its sort, its rows and nodes, in which parameter i is
/// variable i, and its value among them.
#[derive(Drop)]
pub struct Definition {
    pub parameters: Numbers,
    pub sort: u32,
    pub draft: FormulaDraft,
    pub value: Value,
}
