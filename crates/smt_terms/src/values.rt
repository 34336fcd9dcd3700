//! The values of trees inside a forall.
ghost use Rattle.std.specs.Prelude.{◌≡◌, ◌==◌, true, OnOk};
ghost use Rattle.smt_names.specs.declared.refusal.Refusal.TheVariants.{WrongSort};
ghost use Rattle.smt_names.specs.Making.{must_hold};
ghost use Rattle.smt_names.specs.Value.{sort_of};
ghost use Rattle.smt_names.specs.Makes.{Makes, Checks};
ghost use Rattle.smt_terms.specs.Reading.{first_place};
ghost use Rattle.smt_terms.specs.Terms.{value};
ghost use Rattle.smt_terms.specs.Cursor.{trees_from};
ghost use Rattle.smt_terms.specs.Machine.{scope_of};

use crate::context::Context;
use crate::cursor::{Seen, look, place_at};
use crate::walked::Walked;
use crate::walking::walk;
use formula_draft::FormulaDraft;
use smt_names::{BoundNames, Refusal, Stop, Value};
use smt_text::{Place, Tree};
use std::alloc::Global;

/// The value of the tree at a place inside a forall, where no further forall may stand.
pub(crate) fn value_inside(
    context: &Context<'_>,
    draft: &mut FormulaDraft,
    bound: &mut BoundNames,
    at: u32,
    missing: Place,
) -> Result<Value, Stop>
    requires { context.now.inside.in_forall ≡ true }
    ensures value { Makes result draft.old draft.new (value missing (scope_of context.now.state.now context.now.inside bound.old) (trees_from context.now.tree.now at)) }
    ensures bound { OnOk result (bound.new ≡ bound.old) }
{
    let mut frames = Vec::new(context.alloc);
    match walk(context, draft, missing, &mut frames, bound, at) {
        Err(stop) => Err(stop),
        Ok(Walked::Whole(value)) => Ok(value),
        Ok(Walked::Universal { .. }) => unreachable!(),
    }
}

/// The place of the tree that comes next, and the other where none does.
fn first_place_at(tree: &Tree, i: u32, missing: Place) -> Place
    ensures { result ≡ first_place missing (trees_from tree.now i) }
{
    match look(tree, i) {
        Seen::End => missing,
        Seen::Token => place_at(tree, i),
        Seen::List { .. } => place_at(tree, i),
    }
}

/// Whether a value is a formula.
fn is_formula(value: &Value) -> bool
    ensures { result ≡ (sort_of value.now == 0) }
{
    match value {
        Value::Term { sort, .. } => *sort == 0,
        Value::Formula { .. } => true,
    }
}

/// The value of a tree, which must be a formula.
pub(crate) fn check_truth(
    alloc: Global,
    tree: &Tree,
    at: u32,
    missing: Place,
    value: &Value,
) -> Result<(), Stop>
    ensures { Checks result (must_hold (sort_of value.now == 0) WrongSort (first_place missing (trees_from tree.now at))) }
{
    if is_formula(value) {
        Ok(())
    } else {
        Err(Stop::at(alloc, Refusal::WrongSort, first_place_at(tree, at, missing)))
    }
}
