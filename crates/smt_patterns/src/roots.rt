//! Rows of patterns.
ghost use Rattle.std.specs.Prelude.{◌≡◌, [], get_or};
ghost use Rattle.formula_draft.specs.declared.draft_row.DraftRow.TheVariants.{Var};
ghost use Rattle.formula_draft.specs.declared.draft_node.DraftNode.TheVariants.{And};
ghost use Rattle.smt_names.specs.Makes.{Makes};
ghost use Rattle.smt_patterns.specs.Roots.{is_no_application, positive_row, root_of, small_enough, small_root};

use crate::sizes::is_small;
use formula_draft::{DraftNode, DraftRow, FormulaDraft};
use smt_names::{Refusal, Stop, Value};
use smt_text::Place;
use std::alloc::Global;

/// The row of a positive atom.
fn atom_row_of(node: &DraftNode) -> Option<u32>
    ensures { result ≡ positive_row node.now }
{
    match node {
        DraftNode::Atom { positive, row } => positive.then_some(*row),
        DraftNode::Equal { .. } => None,
        DraftNode::And { .. } => None,
        DraftNode::Or { .. } => None,
        DraftNode::Forall { .. } => None,
    }
}

/// Whether the row is a variable, or does not stand.
fn is_no_application(draft: &FormulaDraft, row: u32) -> bool
    ensures { result ≡ is_no_application (get_or draft.now.rows row (Var 0)) }
{
    if row >= draft.rows() {
        return true;
    }
    match draft.row_at(row) {
        DraftRow::Var { .. } => true,
        DraftRow::App { .. } => false,
    }
}

/// The row of a positive atom, where the node is one.
fn positive_row_at(draft: &FormulaDraft, node: u32) -> Option<u32>
    ensures { result ≡ positive_row (get_or draft.now.nodes node (And [])) }
{
    if node >= draft.nodes() {
        return None;
    }
    atom_row_of(draft.node_at(node))
}

/// The row of a pattern whose value is this.
fn root_at(alloc: Global, draft: &FormulaDraft, at: Place, value: Value) -> Result<u32, Stop>
    ensures { Makes result draft.now draft.now (root_of at value) }
{
    match value {
        Value::Term { row, .. } => {
            if is_no_application(draft, row) {
                Err(Stop::at(alloc, Refusal::PatternIsVariable, at))
            } else {
                Ok(row)
            }
        }
        Value::Formula { itself, .. } => match positive_row_at(draft, itself) {
            None => Err(Stop::at(alloc, Refusal::PatternHasConnective, at)),
            Some(row) => Ok(row),
        },
    }
}

/// A pattern has no more symbols and variables than it may have.
fn check_small(alloc: Global, draft: &FormulaDraft, at: Place, row: u32) -> Result<(), Stop>
    ensures { Makes result draft.now draft.now (small_enough at row) }
{
    if is_small(draft, row) {
        Ok(())
    } else {
        Err(Stop::at(alloc, Refusal::PatternTooLarge, at))
    }
}

/// The row of a pattern whose value is this and that stands at a place of the script.
///
/// # Errors
///
/// A variable alone, a formula that is not a positive atom, and more than 256 symbols and variables, counted as a tree, are
/// refused at the place, in this order.
pub fn root_of_pattern(
    alloc: Global,
    draft: &FormulaDraft,
    at: Place,
    value: Value,
) -> Result<u32, Stop>
    ensures { Makes result draft.now draft.now (small_root at value) }
{
    let row = root_at(alloc, draft, at, value)?;
    check_small(alloc, draft, at, row)?;
    Ok(row)
}
