//! `ite`.
ghost use Rattle.std.specs.Prelude.{◌≡◌, ◌∷◌, []};
ghost use Rattle.smt_names.specs.Makes.{Makes};
ghost use Rattle.smt_forms.specs.Nodes.{ite_form, ite_of_three, ite_complement, complements};

use crate::equality::{and_of, put_or_of};
use crate::put::put_both;
use formula_draft::{DraftNode, FormulaDraft};
use smt_names::{Refusal, Stop, Value};
use smt_text::Place;
use std::alloc::Global;

/// The complement of an `ite`, not put yet, where both branches have one.
fn put_ite_complement(
    alloc: Global,
    draft: &mut FormulaDraft,
    at: Place,
    c: &Value,
    a: &Value,
    b: &Value,
) -> Result<Option<DraftNode>, Stop>
    ensures { Makes result draft.old draft.new (ite_complement at c.now (complements (a.now ∷ b.now ∷ []))) }
{
    if a.complement().is_none() {
        return Ok(None);
    }
    if b.complement().is_none() {
        return Ok(None);
    }
    let first = put_or_of(alloc, draft, at, c.other(), a.other())?;
    let second = put_or_of(alloc, draft, at, c.node(), b.other())?;
    let against = and_of(alloc, first, second)?;
    Ok(Some(against))
}

/// `ite` of a condition and two branches.
fn put_ite_of_three(
    alloc: Global,
    draft: &mut FormulaDraft,
    at: Place,
    c: &Value,
    a: &Value,
    b: &Value,
) -> Result<Value, Stop>
    ensures { Makes result draft.old draft.new (ite_of_three at c.now a.now b.now) }
{
    let first = put_or_of(alloc, draft, at, c.other(), a.node())?;
    let second = put_or_of(alloc, draft, at, c.node(), b.node())?;
    let against = put_ite_complement(alloc, draft, at, c, a, b)?;
    let itself = and_of(alloc, first, second)?;
    put_both(alloc, draft, at, itself, against)
}

/// `ite`.
pub(crate) fn put_ite(
    alloc: Global,
    draft: &mut FormulaDraft,
    at: Place,
    parts: &[Value],
) -> Result<Value, Stop>
    ensures { Makes result draft.old draft.new (ite_form at parts.now) }
{
    match parts {
        [c, a, b] => put_ite_of_three(alloc, draft, at, c, a, b),
        _ => Err(Stop::at(alloc, Refusal::BadForm, at)),
    }
}
