//! Puts rows and nodes at a place of the script.
ghost use Rattle.std.specs.Prelude.{◌≡◌};
ghost use Rattle.smt_names.specs.Making.{row, node, node_if};
ghost use Rattle.smt_names.specs.Makes.{Makes};
ghost use Rattle.smt_forms.specs.Nodes.{both};

use formula_draft::{DraftFault, DraftNode, DraftRow, FormulaDraft};
use smt_names::{Refusal, Stop, Value};
use smt_text::Place;
use std::alloc::Global;

/// The number of the row, which is put last where it is new.
pub fn put_row(
    alloc: Global,
    draft: &mut FormulaDraft,
    at: Place,
    new: DraftRow,
) -> Result<u32, Stop>
    ensures { Makes result draft.old draft.new (row at new) }
{
    match draft.row(new) {
        Ok(n) => Ok(n),
        Err(DraftFault::RowsFull) => Err(Stop::at(alloc, Refusal::TermsFull, at)),
        Err(DraftFault::NodesFull) => Err(Stop::Memory),
        Err(DraftFault::Memory) => Err(Stop::Memory),
    }
}

/// The number of the node, which is put last where it is new.
pub fn put_node(
    alloc: Global,
    draft: &mut FormulaDraft,
    at: Place,
    new: DraftNode,
) -> Result<u32, Stop>
    ensures { Makes result draft.old draft.new (node at new) }
{
    match draft.node(new) {
        Ok(n) => Ok(n),
        Err(DraftFault::NodesFull) => Err(Stop::at(alloc, Refusal::NodesFull, at)),
        Err(DraftFault::RowsFull) => Err(Stop::Memory),
        Err(DraftFault::Memory) => Err(Stop::Memory),
    }
}

/// Puts a node, where there is one to put.
pub(crate) fn put_node_if(
    alloc: Global,
    draft: &mut FormulaDraft,
    at: Place,
    new: Option<DraftNode>,
) -> Result<Option<u32>, Stop>
    ensures { Makes result draft.old draft.new (node_if at new) }
{
    match new {
        None => Ok(None),
        Some(new) => {
            let n = put_node(alloc, draft, at, new)?;
            Ok(Some(n))
        }
    }
}

/// Puts a formula and, where there is one, its complement.
pub(crate) fn put_both(
    alloc: Global,
    draft: &mut FormulaDraft,
    at: Place,
    itself: DraftNode,
    against: Option<DraftNode>,
) -> Result<Value, Stop>
    ensures { Makes result draft.old draft.new (both at itself against) }
{
    let itself = put_node(alloc, draft, at, itself)?;
    let complement = put_node_if(alloc, draft, at, against)?;
    Ok(Value::Formula { itself, complement })
}
