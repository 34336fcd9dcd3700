//! `xor`, `=` and `distinct` of any number.
ghost use Rattle.std.specs.Prelude.{◌≡◌};
ghost use Rattle.smt_names.specs.Makes.{Makes, MakesItems};
ghost use Rattle.smt_forms.specs.Nodes.{xor_form, xor_from, neighbours, all_equal, equal_form, distinct_from, distinct_pairs, all_distinct, distinct_of_many, distinct_form, never, complements};

use crate::equality::{put_distinct_of_two, put_equal_of_two, put_xor_of_two};
use crate::forms::put_and;
use crate::parts::complements_of;
use crate::put::put_both;
use formula_draft::{DraftNode, FormulaDraft};
use graph_terms::Numbers;
use smt_names::{Refusal, Stop, Value};
use smt_text::Place;
use std::alloc::Global;

/// `xor` of a value and others, from the left.
fn put_xor_from(
    alloc: Global,
    draft: &mut FormulaDraft,
    at: Place,
    first: &Value,
    parts: &[Value],
) -> Result<Value, Stop>
    ensures { Makes result draft.old draft.new (xor_from at first.now parts.now) }
{
    let mut so_far = *first;
    let mut i = 0;
    while i < parts.len() {
        so_far = put_xor_of_two(alloc, draft, at, &so_far, &parts[i])?;
        i += 1;
    }
    Ok(so_far)
}

/// `xor`.
pub(crate) fn put_xor(
    alloc: Global,
    draft: &mut FormulaDraft,
    at: Place,
    parts: &[Value],
) -> Result<Value, Stop>
    ensures { Makes result draft.old draft.new (xor_form at parts.now) }
{
    match parts {
        [] => Err(Stop::at(alloc, Refusal::BadForm, at)),
        [first, others @ ..] => put_xor_from(alloc, draft, at, first, others),
    }
}

/// The equations of a value and others, each with the next.
fn put_neighbours(
    alloc: Global,
    draft: &mut FormulaDraft,
    at: Place,
    first: &Value,
    parts: &[Value],
) -> Result<Vec<Value>, Stop>
    ensures { MakesItems result draft.old draft.new (neighbours at first.now parts.now) }
{
    let mut equations = Vec::new(alloc);
    let mut left = *first;
    let mut i = 0;
    while i < parts.len() {
        let equation = put_equal_of_two(alloc, draft, at, &left, &parts[i])?;
        equations.push(equation)?;
        left = parts[i];
        i += 1;
    }
    Ok(equations)
}

/// A value and others, each equal to the next.
fn put_all_equal(
    alloc: Global,
    draft: &mut FormulaDraft,
    at: Place,
    first: &Value,
    parts: &[Value],
) -> Result<Value, Stop>
    ensures { Makes result draft.old draft.new (all_equal at first.now parts.now) }
{
    let equations = put_neighbours(alloc, draft, at, first, parts)?;
    put_and(alloc, draft, at, &equations)
}

/// `=`.
pub(crate) fn put_equal(
    alloc: Global,
    draft: &mut FormulaDraft,
    at: Place,
    parts: &[Value],
) -> Result<Value, Stop>
    ensures { Makes result draft.old draft.new (equal_form at parts.now) }
{
    match parts {
        [] => Err(Stop::at(alloc, Refusal::BadForm, at)),
        [_] => Err(Stop::at(alloc, Refusal::BadForm, at)),
        [a, b] => put_equal_of_two(alloc, draft, at, a, b),
        [a, others @ ..] => put_all_equal(alloc, draft, at, a, others),
    }
}

/// A value is distinct from each of others.
fn put_distinct_from(
    alloc: Global,
    draft: &mut FormulaDraft,
    at: Place,
    first: &Value,
    parts: &[Value],
) -> Result<Vec<Value>, Stop>
    ensures { MakesItems result draft.old draft.new (distinct_from at first.now parts.now) }
{
    let mut differences = Vec::new(alloc);
    let mut i = 0;
    while i < parts.len() {
        let difference = put_distinct_of_two(alloc, draft, at, first, &parts[i])?;
        differences.push(difference)?;
        i += 1;
    }
    Ok(differences)
}

/// Each value is distinct from each that follows.
fn put_distinct_pairs(
    alloc: Global,
    draft: &mut FormulaDraft,
    at: Place,
    parts: &[Value],
) -> Result<Vec<Value>, Stop>
    ensures { MakesItems result draft.old draft.new (distinct_pairs at parts.now) }
{
    let mut differences: Vec<Value> = Vec::new(alloc);
    let mut i = 0;
    while i < parts.len() {
        let next = i + 1;
        let more = put_distinct_from(alloc, draft, at, &parts[i], &parts[next..])?;
        differences.extend_from_slice(&more)?;
        i = next;
    }
    Ok(differences)
}

/// Three formulas or more, which are never all different.
fn put_never(
    alloc: Global,
    draft: &mut FormulaDraft,
    at: Place,
    parts: &[Value],
) -> Result<Value, Stop>
    ensures { Makes result draft.old draft.new (never at (complements parts.now)) }
{
    let none = Numbers::from_slice(alloc, &[])?;
    match complements_of(alloc, parts)? {
        None => put_both(alloc, draft, at, DraftNode::Or { parts: none }, None),
        Some(_) => {
            let also_none = Numbers::from_slice(alloc, &[])?;
            let against = DraftNode::And { parts: also_none };
            put_both(
                alloc,
                draft,
                at,
                DraftNode::Or { parts: none },
                Some(against),
            )
        }
    }
}

/// Values of which each differs from each that follows.
fn put_all_distinct(
    alloc: Global,
    draft: &mut FormulaDraft,
    at: Place,
    parts: &[Value],
) -> Result<Value, Stop>
    ensures { Makes result draft.old draft.new (all_distinct at parts.now) }
{
    let differences = put_distinct_pairs(alloc, draft, at, parts)?;
    put_and(alloc, draft, at, &differences)
}

/// `distinct` of three or more, by the first of them.
fn put_distinct_of_many(
    alloc: Global,
    draft: &mut FormulaDraft,
    at: Place,
    first: &Value,
    parts: &[Value],
) -> Result<Value, Stop>
    ensures { Makes result draft.old draft.new (distinct_of_many at first.now parts.now) }
{
    match first {
        Value::Formula { .. } => put_never(alloc, draft, at, parts),
        Value::Term { .. } => put_all_distinct(alloc, draft, at, parts),
    }
}

/// `distinct`.
pub(crate) fn put_distinct(
    alloc: Global,
    draft: &mut FormulaDraft,
    at: Place,
    parts: &[Value],
) -> Result<Value, Stop>
    ensures { Makes result draft.old draft.new (distinct_form at parts.now) }
{
    match parts {
        [] => Err(Stop::at(alloc, Refusal::BadForm, at)),
        [_] => Err(Stop::at(alloc, Refusal::BadForm, at)),
        [a, b] => put_distinct_of_two(alloc, draft, at, a, b),
        [a, ..] => put_distinct_of_many(alloc, draft, at, a, parts),
    }
}
