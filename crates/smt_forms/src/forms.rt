//! Truth, conjunctions, disjunctions, implications, and applications of declared functions.
ghost use Rattle.std.specs.Prelude.{◌≡◌, map, ◌++◌, ◌∷◌, [], Some, option_map, IfOk};
ghost use Rattle.smt_names.specs.Value.{self as own_node, other, complement};
ghost use Rattle.smt_names.specs.Makes.{Makes};
ghost use Rattle.smt_forms.specs.Nodes.{true_form, and_form, or_form, implies_form, implied, refuted, application};

use crate::parts::{complements_of, rows_of, selves_of};
use crate::put::{put_both, put_row};
use formula_draft::{DraftNode, DraftRow, FormulaDraft};
use graph_terms::{Memory, Numbers};
use smt_names::{Stop, Value};
use smt_text::Place;
use std::alloc::Global;

/// `true`.
pub(crate) fn put_true(alloc: Global, draft: &mut FormulaDraft, at: Place) -> Result<Value, Stop>
    ensures { Makes result draft.old draft.new (true_form at) }
{
    let none = Numbers::from_slice(alloc, &[])?;
    let also_none = Numbers::from_slice(alloc, &[])?;
    put_both(
        alloc,
        draft,
        at,
        DraftNode::And { parts: none },
        Some(DraftNode::Or { parts: also_none }),
    )
}

/// `and`.
pub(crate) fn put_and(
    alloc: Global,
    draft: &mut FormulaDraft,
    at: Place,
    parts: &[Value],
) -> Result<Value, Stop>
    ensures { Makes result draft.old draft.new (and_form at parts.now) }
{
    let selves = selves_of(alloc, parts)?;
    match complements_of(alloc, parts)? {
        None => put_both(alloc, draft, at, DraftNode::And { parts: selves }, None),
        Some(others) => {
            let against = DraftNode::Or { parts: others };
            put_both(
                alloc,
                draft,
                at,
                DraftNode::And { parts: selves },
                Some(against),
            )
        }
    }
}

/// `or`.
pub(crate) fn put_or(
    alloc: Global,
    draft: &mut FormulaDraft,
    at: Place,
    parts: &[Value],
) -> Result<Value, Stop>
    ensures { Makes result draft.old draft.new (or_form at parts.now) }
{
    let selves = selves_of(alloc, parts)?;
    match complements_of(alloc, parts)? {
        None => put_both(alloc, draft, at, DraftNode::Or { parts: selves }, None),
        Some(others) => {
            let against = DraftNode::And { parts: others };
            put_both(
                alloc,
                draft,
                at,
                DraftNode::Or { parts: selves },
                Some(against),
            )
        }
    }
}

/// The complements of all parts but the last, and the last itself.
fn implied_of(alloc: Global, parts: &[Value]) -> Result<Numbers, Memory>
    ensures { IfOk result (λ numbers. numbers ≡ implied parts.now) }
{
    let mut numbers = Vec::new(alloc);
    let mut i = 0;
    while i < parts.len() {
        if i + 1 == parts.len() {
            numbers.push(parts[i].node())?;
        } else {
            numbers.push(parts[i].other())?;
        }
        i += 1;
    }
    Numbers::from_slice(alloc, &numbers)
}

/// All parts but the last, and the complement of the last where it has one.
fn refuted_of(alloc: Global, parts: &[Value]) -> Result<Option<Numbers>, Memory>
    ensures { IfOk result (λ numbers. numbers ≡ refuted parts.now) }
{
    let mut numbers = Vec::new(alloc);
    let mut i = 0;
    while i < parts.len() {
        if i + 1 == parts.len() {
            match parts[i].complement() {
                None => return Ok(None),
                Some(complement) => numbers.push(complement)?,
            }
        } else {
            numbers.push(parts[i].node())?;
        }
        i += 1;
    }
    let numbers = Numbers::from_slice(alloc, &numbers)?;
    Ok(Some(numbers))
}

/// `=>`.
pub(crate) fn put_implies(
    alloc: Global,
    draft: &mut FormulaDraft,
    at: Place,
    parts: &[Value],
) -> Result<Value, Stop>
    ensures { Makes result draft.old draft.new (implies_form at parts.now) }
{
    let implied = implied_of(alloc, parts)?;
    match refuted_of(alloc, parts)? {
        None => put_both(alloc, draft, at, DraftNode::Or { parts: implied }, None),
        Some(refuted) => {
            let against = DraftNode::And { parts: refuted };
            put_both(
                alloc,
                draft,
                at,
                DraftNode::Or { parts: implied },
                Some(against),
            )
        }
    }
}

/// An application of a declared function.
pub(crate) fn put_application(
    alloc: Global,
    draft: &mut FormulaDraft,
    at: Place,
    symbol: u32,
    sort: u32,
    parts: &[Value],
) -> Result<Value, Stop>
    ensures { Makes result draft.old draft.new (application at symbol sort parts.now) }
{
    let args = rows_of(alloc, parts)?;
    let row = put_row(alloc, draft, at, DraftRow::App { symbol, args })?;
    if sort == 0 {
        let itself = DraftNode::Atom {
            positive: true,
            row,
        };
        let against = DraftNode::Atom {
            positive: false,
            row,
        };
        put_both(alloc, draft, at, itself, Some(against))
    } else {
        Ok(Value::Term { row, sort })
    }
}
