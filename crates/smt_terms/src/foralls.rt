//! Foralls.
ghost use Rattle.std.specs.Prelude.{◌≡◌, ◌<◌, ◌^◌, ◌+◌, ◌||◌, not, true, OnOk};
ghost use Rattle.smt_names.specs.Makes.{Makes};
ghost use Rattle.smt_terms.specs.Terms.{forall_value, checked_forall, bound_forall, body_forall, quantified, some_trigger};
ghost use Rattle.smt_terms.specs.Triggers.{forall_of, triggered, quantified_inside};
ghost use Rattle.smt_terms.specs.Bodies.{attributes_at, body_at};
ghost use Rattle.smt_terms.specs.Cursor.{word_at, trees_from};
ghost use Rattle.smt_terms.specs.Machine.{scope_of};

use crate::bodies::{Body, check_few_bindings, read_body, variables_at};
use crate::checks::{check_bindings, check_exactly};
use crate::context::Context;
use crate::cursor::place_at;
use crate::giving::bind_all;
use crate::heading::Heading;
use crate::inside::Inside;
use crate::triggers::put_triggers;
use crate::values::{check_truth, value_inside};
use formula_draft::{DraftNode, FormulaDraft};
use graph_trigger::Triggers;
use smt_forms::put_node;
use smt_names::{Bound, BoundNames, Refusal, Stop, Value};
use smt_patterns::count_of;
use std::alloc::Global;

/// Whether there is a trigger.
fn has_trigger(triggers: &Triggers) -> bool
    ensures { result ≡ some_trigger triggers.now }
{
    triggers.len() > 0
}

/// The forall with so many variables, this body and these triggers, of which there must be one.
fn put_forall_of(
    alloc: Global,
    draft: &mut FormulaDraft,
    heading: Heading,
    variables: u32,
    body: &Value,
    triggers: Triggers,
) -> Result<Value, Stop>
    ensures { Makes result draft.old draft.new (forall_of heading.paren heading.head variables body.now triggers) }
{
    if !has_trigger(&triggers) {
        return Err(Stop::at(alloc, Refusal::NotInProfile, heading.head));
    }
    match draft.forall(variables, body.node(), triggers) {
        Err(_) => Err(Stop::Memory),
        Ok(index) => {
            let itself = put_node(alloc, draft, heading.paren, DraftNode::Forall { index })?;
            Ok(Value::Formula {
                itself,
                complement: None,
            })
        }
    }
}

/// The forall of these variables and this body, and of the triggers whose keywords stand at these places.
fn put_triggered(
    context: &Context<'_>,
    draft: &mut FormulaDraft,
    bound: &mut BoundNames,
    heading: Heading,
    variables: &[Bound],
    keys: &[u32],
    body: &Value,
) -> Result<Value, Stop>
    requires { context.now.inside.in_forall ≡ true }
    ensures value { Makes result draft.old draft.new (triggered heading.paren heading.head (scope_of context.now.state.now context.now.inside bound.old) variables.now (attributes_at context.now.tree.now keys.now) body.now) }
    ensures bound { OnOk result (bound.new ≡ bound.old) }
{
    let triggers = put_triggers(context, draft, bound, variables, keys)?;
    let count = count_of(variables)?;
    put_forall_of(context.alloc, draft, heading, count, body, triggers)
}

/// A forall whose variables are bound: its body, which must be a formula, and then its triggers.
fn put_inside(
    context: &Context<'_>,
    draft: &mut FormulaDraft,
    bound: &mut BoundNames,
    heading: Heading,
    variables: &[Bound],
    body: &Body,
) -> Result<Value, Stop>
    requires { context.now.inside.in_forall ≡ true }
    ensures value { Makes result draft.old draft.new (quantified_inside heading.paren heading.head (scope_of context.now.state.now context.now.inside bound.old) variables.now (trees_from context.now.tree.now body.now.at) (attributes_at context.now.tree.now body.now.patterns.items)) }
    ensures bound { OnOk result (bound.new ≡ bound.old) }
{
    let head = heading.head;
    let value = value_inside(context, draft, bound, body.at, head)?;
    check_truth(context.alloc, context.tree, body.at, head, &value)?;
    let keys = body.patterns.as_slice();
    put_triggered(context, draft, bound, heading, variables, keys, &value)
}

/// A forall of these variables and this body. The variables are bound in it alone.
fn put_quantified(
    context: &Context<'_>,
    draft: &mut FormulaDraft,
    bound: &mut BoundNames,
    heading: Heading,
    variables: &[Bound],
    body: &Body,
) -> Result<Value, Stop>
    ensures value { Makes result draft.old draft.new (quantified heading.paren heading.head (scope_of context.now.state.now context.now.inside bound.old) variables.now (body_at context.now.tree.now body.now)) }
    ensures bound { OnOk result (bound.new ≡ bound.old) }
{
    let outside = bound.len();
    bind_all(bound, variables)?;
    let within = Context {
        inside: Inside {
            in_forall: true,
            in_definition: context.inside.in_definition,
        },
        ..*context
    };
    let value = put_inside(&within, draft, bound, heading, variables, body)?;
    bound.truncate(outside);
    Ok(value)
}

/// The body and the triggers of a forall whose variables are these. The attributes round the body are checked first.
fn put_body(
    context: &Context<'_>,
    draft: &mut FormulaDraft,
    bound: &mut BoundNames,
    i: u32,
    variables: &[Bound],
    body: u32,
) -> Result<Value, Stop>
    ensures value { Makes result draft.old draft.new (body_forall (word_at context.now.tree.now i).place (word_at context.now.tree.now (i + 1)).place (scope_of context.now.state.now context.now.inside bound.old) variables.now (trees_from context.now.tree.now body)) }
    ensures bound { OnOk result (bound.new ≡ bound.old) }
{
    if i == u32::MAX {
        return Err(Stop::Memory);
    }
    let found = read_body(context.alloc, context.tree, body)?;
    let paren = place_at(context.tree, i);
    let head = place_at(context.tree, i + 1);
    put_quantified(
        context,
        draft,
        bound,
        Heading { paren, head },
        variables,
        &found,
    )
}

/// A forall whose bindings have the right form: their number and their sorts are checked, and then its body.
fn put_bound_forall(
    context: &Context<'_>,
    draft: &mut FormulaDraft,
    bound: &mut BoundNames,
    i: u32,
    bindings: u32,
    body: u32,
) -> Result<Value, Stop>
    ensures value { Makes result draft.old draft.new (bound_forall (word_at context.now.tree.now i).place (word_at context.now.tree.now (i + 1)).place (scope_of context.now.state.now context.now.inside bound.old) (trees_from context.now.tree.now bindings) (trees_from context.now.tree.now body)) }
    ensures bound { OnOk result (bound.new ≡ bound.old) }
{
    let Context {
        alloc,
        state,
        tree,
        ..
    } = *context;
    check_few_bindings(alloc, tree, bindings, 32, Refusal::TooManyVariables)?;
    let variables = variables_at(alloc, state, tree, bindings)?;
    put_body(context, draft, bound, i, variables.as_slice(), body)
}

/// A forall: its form is checked, and then what it binds.
fn put_checked_forall(
    context: &Context<'_>,
    draft: &mut FormulaDraft,
    bound: &mut BoundNames,
    i: u32,
    parts: u32,
) -> Result<Value, Stop>
    requires parts { parts ≡ i + 2 }
    requires fits { i + 3 < 2 ^ 32 }
    ensures value { Makes result draft.old draft.new (checked_forall (word_at context.now.tree.now i).place (word_at context.now.tree.now (i + 1)).place (trees_from context.now.tree.now parts) (scope_of context.now.state.now context.now.inside bound.old)) }
    ensures bound { OnOk result (bound.new ≡ bound.old) }
{
    let Context { alloc, tree, .. } = *context;
    let head = place_at(tree, i + 1);
    check_exactly(alloc, tree, parts, 2, head)?;
    let body = check_bindings(alloc, tree, parts, head)?;
    put_bound_forall(context, draft, bound, i, parts + 1, body)
}

/// Whether a forall may stand there: neither inside a forall nor inside a definition.
fn may_bind(inside: Inside) -> bool
    ensures { result ≡ not (inside.in_forall || inside.in_definition) }
{
    !(inside.in_forall || inside.in_definition)
}

/// A forall.
pub(crate) fn put_forall(
    context: &Context<'_>,
    draft: &mut FormulaDraft,
    bound: &mut BoundNames,
    i: u32,
) -> Result<Value, Stop>
    ensures value { Makes result draft.old draft.new (forall_value (word_at context.now.tree.now i).place (word_at context.now.tree.now (i + 1)).place (trees_from context.now.tree.now (i + 2)) (scope_of context.now.state.now context.now.inside bound.old)) }
    ensures bound { OnOk result (bound.new ≡ bound.old) }
{
    if i > u32::MAX - 3 {
        return Err(Stop::Memory);
    }
    if !may_bind(context.inside) {
        let head = place_at(context.tree, i + 1);
        return Err(Stop::at(context.alloc, Refusal::NotInProfile, head));
    }
    put_checked_forall(context, draft, bound, i, i + 2)
}
