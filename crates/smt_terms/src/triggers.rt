//! Triggers, whose patterns are elaborated where they stand.
ghost use Rattle.std.specs.Prelude.{◌≡◌, ◌<◌, ◌+◌, ◌^◌, cond, true, OnOk};
ghost use Rattle.smt_names.specs.Makes.{Makes, MakesItems};
ghost use Rattle.smt_names.specs.Names.{is_keyword as keyword};
ghost use Rattle.smt_terms.specs.Terms.{value, pattern_root, pattern_roots, trigger as trigger_so, triggers as triggers_so};
ghost use Rattle.smt_terms.specs.Triggers.{MaySeeTree, HasNumber, HasPatterns, listed_trigger};
ghost use Rattle.smt_terms.specs.Cursor.{word_at, trees_from};
ghost use Rattle.smt_terms.specs.Bodies.{attribute_at, attributes_at};
ghost use Rattle.smt_terms.specs.Machine.{scope_of};

use crate::checks::{check_at_least, check_no_more};
use crate::context::Context;
use crate::cursor::{Seen, behind_some, kind_at, look, place_at};
use crate::values::value_inside;
use formula_draft::FormulaDraft;
use graph_trigger::{Trigger, Triggers};
use smt_names::{Bound, BoundNames, Refusal, Stop, is_keyword};
use smt_patterns::{root_of_pattern, trigger_of_roots};
use smt_text::{Place, Tree};
use std::alloc::Global;

/// The place behind the tree that comes next, where one does.
fn behind_next(tree: &Tree, i: u32) -> Option<u32>
    ensures { MaySeeTree tree.now i result }
{
    match look(tree, i) {
        Seen::End => None,
        Seen::Token => {
            let _len = tree.len();
            Some(i + 1)
        }
        Seen::List { after } => Some(after),
    }
}

/// The root of the pattern that comes next.
fn put_root(
    context: &Context<'_>,
    draft: &mut FormulaDraft,
    bound: &mut BoundNames,
    at: u32,
) -> Result<u32, Stop>
    requires { context.now.inside.in_forall ≡ true }
    ensures value { Makes result draft.old draft.new (pattern_root (word_at context.now.tree.now at).place (value (word_at context.now.tree.now at).place (scope_of context.now.state.now context.now.inside bound.old) (trees_from context.now.tree.now at))) }
    ensures bound { OnOk result (bound.new ≡ bound.old) }
{
    let place = place_at(context.tree, at);
    let value = value_inside(context, draft, bound, at, place)?;
    root_of_pattern(context.alloc, draft, place, value)
}

/// The roots of the patterns that come next, to the end of the list.
fn put_roots(
    context: &Context<'_>,
    draft: &mut FormulaDraft,
    bound: &mut BoundNames,
    at: u32,
) -> Result<Vec<u32>, Stop>
    requires { context.now.inside.in_forall ≡ true }
    ensures value { MakesItems result draft.old draft.new (pattern_roots (scope_of context.now.state.now context.now.inside bound.old) (trees_from context.now.tree.now at)) }
    ensures bound { OnOk result (bound.new ≡ bound.old) }
{
    let mut roots = Vec::new(context.alloc);
    let mut i = at;
    loop {
        match behind_next(context.tree, i) {
            None => return Ok(roots),
            Some(after) => {
                match put_root(context, draft, bound, i) {
                    Err(stop) => return Err(stop),
                    Ok(root) => roots.push(root)?,
                }
                i = after;
            }
        }
    }
}

/// The trigger of the patterns that come next, to the end of the list.
fn put_listed(
    context: &Context<'_>,
    draft: &mut FormulaDraft,
    bound: &mut BoundNames,
    variables: &[Bound],
    paren: Place,
    at: u32,
) -> Result<Trigger, Stop>
    requires { context.now.inside.in_forall ≡ true }
    ensures value { Makes result draft.old draft.new (listed_trigger (scope_of context.now.state.now context.now.inside bound.old) variables.now paren (trees_from context.now.tree.now at)) }
    ensures bound { OnOk result (bound.new ≡ bound.old) }
{
    let roots = put_roots(context, draft, bound, at)?;
    trigger_of_roots(context.alloc, draft, variables, paren, roots.as_slice())
}

/// One to sixteen patterns come next, to the end of the list.
fn check_number(alloc: Global, tree: &Tree, i: u32, paren: Place) -> Result<(), Stop>
    ensures { HasNumber tree.now i paren result }
{
    check_at_least(alloc, tree, i, 1, paren)?;
    check_no_more(
        alloc,
        tree,
        behind_some(tree, i, 16),
        Refusal::TooManyPatterns,
    )
}

/// The place of the tree or of the keyword at which a list of patterns is missing.
fn missing_at(tree: &Tree, key: u32, i: u32) -> Place
    ensures { result ≡ cond (keyword (word_at tree.now i).kind) (word_at tree.now key).place (word_at tree.now i).place }
{
    if is_keyword(kind_at(tree, i)) {
        place_at(tree, key)
    } else {
        place_at(tree, i)
    }
}

/// The list of one to sixteen patterns must stand behind a keyword.
fn check_patterns(alloc: Global, tree: &Tree, key: u32) -> Result<(), Stop>
    requires { key + 2 < 2 ^ 32 }
    ensures { HasPatterns tree.now key result }
{
    let i = key + 1;
    match look(tree, i) {
        Seen::End => Err(Stop::at(alloc, Refusal::BadForm, place_at(tree, key))),
        Seen::Token => Err(Stop::at(alloc, Refusal::BadForm, missing_at(tree, key, i))),
        Seen::List { .. } => check_number(alloc, tree, key + 2, place_at(tree, i)),
    }
}

/// The trigger whose keyword stands at a place.
fn put_trigger(
    context: &Context<'_>,
    draft: &mut FormulaDraft,
    bound: &mut BoundNames,
    variables: &[Bound],
    key: u32,
) -> Result<Trigger, Stop>
    requires { context.now.inside.in_forall ≡ true }
    ensures value { Makes result draft.old draft.new (trigger_so (scope_of context.now.state.now context.now.inside bound.old) variables.now (attribute_at context.now.tree.now key)) }
    ensures bound { OnOk result (bound.new ≡ bound.old) }
{
    if key >= u32::MAX - 2 {
        return Err(Stop::Memory);
    }
    check_patterns(context.alloc, context.tree, key)?;
    let paren = place_at(context.tree, key + 1);
    put_listed(context, draft, bound, variables, paren, key + 2)
}

/// The triggers whose keywords stand at these places.
pub(crate) fn put_triggers(
    context: &Context<'_>,
    draft: &mut FormulaDraft,
    bound: &mut BoundNames,
    variables: &[Bound],
    keys: &[u32],
) -> Result<Triggers, Stop>
    requires { context.now.inside.in_forall ≡ true }
    ensures value { Makes result draft.old draft.new (triggers_so (scope_of context.now.state.now context.now.inside bound.old) variables.now (attributes_at context.now.tree.now keys.now)) }
    ensures bound { OnOk result (bound.new ≡ bound.old) }
{
    let mut triggers = Triggers::new(context.alloc);
    for key in keys {
        match put_trigger(context, draft, bound, variables, *key) {
            Err(stop) => return Err(stop),
            Ok(trigger) => triggers.push(trigger)?,
        }
    }
    Ok(triggers)
}
