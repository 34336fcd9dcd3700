//! `xor` and `=` of two.
ghost use Rattle.std.specs.Prelude.{◌≡◌, IfOk};
ghost use Rattle.smt_names.specs.Makes.{Makes};
ghost use Rattle.smt_forms.specs.Nodes.{or_of, and_of, crossed, xor_of_two, same_truth, equal_of_two, distinct_of_two};

use crate::crossed::Crossed;
use crate::put::{put_both, put_node};
use formula_draft::{DraftNode, FormulaDraft};
use graph_terms::{Memory, Numbers};
use smt_names::{Stop, Value};
use smt_text::Place;
use std::alloc::Global;

/// A disjunction of two nodes.
pub(crate) fn put_or_of(
    alloc: Global,
    draft: &mut FormulaDraft,
    at: Place,
    left: u32,
    right: u32,
) -> Result<u32, Stop>
    ensures { Makes result draft.old draft.new (or_of at left right) }
{
    let parts = Numbers::from_slice(alloc, &[left, right])?;
    put_node(alloc, draft, at, DraftNode::Or { parts })
}

/// A conjunction of two nodes, not put yet.
pub(crate) fn and_of(alloc: Global, left: u32, right: u32) -> Result<DraftNode, Memory>
    ensures { IfOk result (λ new. new ≡ and_of left right) }
{
    let parts = Numbers::from_slice(alloc, &[left, right])?;
    Ok(DraftNode::And { parts })
}

/// The four disjunctions of two formulas and their complements.
fn put_crossed(
    alloc: Global,
    draft: &mut FormulaDraft,
    at: Place,
    a: &Value,
    b: &Value,
) -> Result<Crossed, Stop>
    ensures { Makes result draft.old draft.new (crossed at a.now b.now) }
{
    let m = put_or_of(alloc, draft, at, a.node(), b.node())?;
    let n = put_or_of(alloc, draft, at, a.other(), b.other())?;
    let p = put_or_of(alloc, draft, at, a.node(), b.other())?;
    let q = put_or_of(alloc, draft, at, a.other(), b.node())?;
    Ok(Crossed { m, n, p, q })
}

/// One of two formulas, and not both.
pub(crate) fn put_xor_of_two(
    alloc: Global,
    draft: &mut FormulaDraft,
    at: Place,
    a: &Value,
    b: &Value,
) -> Result<Value, Stop>
    ensures { Makes result draft.old draft.new (xor_of_two at a.now b.now) }
{
    let crossed = put_crossed(alloc, draft, at, a, b)?;
    let itself = and_of(alloc, crossed.m, crossed.n)?;
    let against = and_of(alloc, crossed.p, crossed.q)?;
    put_both(alloc, draft, at, itself, Some(against))
}

/// Both formulas, or none.
fn put_same_truth(
    alloc: Global,
    draft: &mut FormulaDraft,
    at: Place,
    a: &Value,
    b: &Value,
) -> Result<Value, Stop>
    ensures { Makes result draft.old draft.new (same_truth at a.now b.now) }
{
    let crossed = put_crossed(alloc, draft, at, a, b)?;
    let itself = and_of(alloc, crossed.p, crossed.q)?;
    let against = and_of(alloc, crossed.m, crossed.n)?;
    put_both(alloc, draft, at, itself, Some(against))
}

/// `=` of two values of one sort.
pub(crate) fn put_equal_of_two(
    alloc: Global,
    draft: &mut FormulaDraft,
    at: Place,
    a: &Value,
    b: &Value,
) -> Result<Value, Stop>
    ensures { Makes result draft.old draft.new (equal_of_two at a.now b.now) }
{
    match a {
        Value::Formula { .. } => put_same_truth(alloc, draft, at, a, b),
        Value::Term { row, .. } => {
            let left = *row;
            let right = b.row();
            let itself = DraftNode::Equal {
                positive: true,
                left,
                right,
            };
            let against = DraftNode::Equal {
                positive: false,
                left,
                right,
            };
            put_both(alloc, draft, at, itself, Some(against))
        }
    }
}

/// `distinct` of two values of one sort.
pub(crate) fn put_distinct_of_two(
    alloc: Global,
    draft: &mut FormulaDraft,
    at: Place,
    a: &Value,
    b: &Value,
) -> Result<Value, Stop>
    ensures { Makes result draft.old draft.new (distinct_of_two at a.now b.now) }
{
    let equation = put_equal_of_two(alloc, draft, at, a, b)?;
    Ok(equation.swapped())
}
