//! Elaborates a term with a stack of its own, up to a forall.
ghost use Rattle.std.specs.Prelude.{◌≡◌, ◌<◌, ◌+◌, length, reverse, List};
ghost use Rattle.smt_text.specs.declared.token.Place.{Place};
ghost use Rattle.formula_draft.specs.Draft.{Draft};
ghost use Rattle.smt_names.specs.Makes.{Makes};
ghost use Rattle.smt_terms.specs.Terms.{list_value};
ghost use Rattle.smt_terms.specs.Cursor.{word_at, trees_from, SeesList, SeesToken};
ghost use Rattle.smt_terms.specs.Reading.{End};
ghost use Rattle.smt_terms.specs.declared.inside.Inside.{Inside};
ghost use Rattle.smt_names.specs.declared.bound.Bound.{Bound};
ghost use Rattle.smt_terms.specs.Machine.{Steps, Walks, scope_of, goes_by, step_of, step_for};

use crate::context::Context;
use crate::cursor::{Seen, look, place_at, text_at};
use crate::frame::Frame;
use crate::giving::give;
use crate::next::Next;
use crate::opened::Opened;
use crate::opening::open_list;
use crate::step::Step;
use crate::tokens::put_token;
use crate::walked::Walked;
use crate::work::Work;
use formula_draft::FormulaDraft;
use smt_forms::{Site, apply};
use smt_names::{Arg, BoundNames, Refusal, SessionState, Stop, Value};
use smt_text::{Place, Tree};
use std::alloc::Global;

/// The value of a list that ends, and its place.
fn value_of_list(
    alloc: Global,
    draft: &mut FormulaDraft,
    state: &SessionState,
    tree: &Tree,
    frame: &Frame,
) -> Result<Value, Stop>
    ensures { (inside : Inside) (bound : List Bound) → Makes result draft.old draft.new (goes_by tree.now frame.now.work (scope_of state.now inside bound) frame.now End) }
{
    match &frame.work {
        Work::Apply { called, head, args } => apply(
            alloc,
            draft,
            state,
            Site {
                at: frame.paren,
                head: frame.head,
            },
            text_at(tree, *called),
            *head,
            args.as_slice(),
        ),
        Work::Let { name, .. } => Err(Stop::at(alloc, Refusal::BadForm, place_at(tree, *name))),
        Work::Pass { .. } => Err(Stop::at(alloc, Refusal::BadForm, frame.head)),
    }
}

/// The step that goes on so.
fn step_to(next: Next) -> Step
    ensures { result ≡ step_of next }
{
    match next {
        Next::At(i) => Step::At(i),
        Next::Whole(value) => Step::Whole(value),
    }
}

/// The step that opens a list.
fn step_into(opened: Opened, at: u32, after: u32) -> Step
    ensures { result ≡ step_for opened at after }
{
    match opened {
        Opened::At(i) => Step::At(i),
        Opened::Universal => Step::Universal { at, after },
    }
}

/// The innermost list ends: its value goes to the list round it.
fn close(
    context: &Context<'_>,
    draft: &mut FormulaDraft,
    missing: Place,
    frames: &mut Vec<Frame>,
    bound: &mut BoundNames,
    i: u32,
) -> Result<Step, Stop>
    requires { trees_from context.now.tree.now i ≡ End }
    ensures { Steps context.now.tree.now context.now.state.now context.now.inside missing frames.old.items bound.old frames.new.items bound.new draft.old draft.new i result }
{
    let Context {
        alloc,
        state,
        tree,
        ..
    } = *context;
    match frames.pop() {
        None => Err(Stop::at(alloc, Refusal::BadForm, missing)),
        Some(frame) => match value_of_list(alloc, draft, state, tree, &frame) {
            Err(stop) => Err(stop),
            Ok(value) => {
                let place = frame.paren;
                match give(
                    alloc,
                    tree,
                    frames,
                    bound,
                    frame.after,
                    Arg { place, value },
                ) {
                    Err(_) => Err(Stop::Memory),
                    Ok(next) => Ok(step_to(next)),
                }
            }
        },
    }
}

/// A token that is a tree: its value goes to the innermost list.
fn pass_token(
    context: &Context<'_>,
    draft: &mut FormulaDraft,
    frames: &mut Vec<Frame>,
    bound: &mut BoundNames,
    i: u32,
) -> Result<Step, Stop>
    requires { SeesToken context.now.tree.now i }
    ensures { (missing : Place) → Steps context.now.tree.now context.now.state.now context.now.inside missing frames.old.items bound.old frames.new.items bound.new draft.old draft.new i result }
{
    let Context { alloc, tree, .. } = *context;
    let _len = tree.len();
    let value = put_token(context, draft, bound, i)?;
    let place = place_at(tree, i);
    match give(alloc, tree, frames, bound, i + 1, Arg { place, value }) {
        Err(_) => Err(Stop::Memory),
        Ok(next) => Ok(step_to(next)),
    }
}

/// A list begins.
fn enter_list(
    context: &Context<'_>,
    frames: &mut Vec<Frame>,
    bound: &mut BoundNames,
    i: u32,
    after: u32,
) -> Result<Step, Stop>
    requires { SeesList context.now.tree.now i after }
    ensures { (missing : Place) (draft : Draft) → Steps context.now.tree.now context.now.state.now context.now.inside missing frames.old.items bound.old frames.new.items bound.new draft draft i result }
{
    let opened = open_list(context, frames, bound, i, after)?;
    Ok(step_into(opened, i, after))
}

/// One step: a list ends, a token is passed, or a list begins.
fn step(
    context: &Context<'_>,
    draft: &mut FormulaDraft,
    missing: Place,
    frames: &mut Vec<Frame>,
    bound: &mut BoundNames,
    i: u32,
) -> Result<Step, Stop>
    ensures { Steps context.now.tree.now context.now.state.now context.now.inside missing frames.old.items bound.old frames.new.items bound.new draft.old draft.new i result }
{
    match look(context.tree, i) {
        Seen::End => close(context, draft, missing, frames, bound, i),
        Seen::Token => pass_token(context, draft, frames, bound, i),
        Seen::List { after } => enter_list(context, frames, bound, i, after),
    }
}

/// Goes on up to a forall outside foralls and definitions, or to the value of the whole.
pub(crate) fn walk(
    context: &Context<'_>,
    draft: &mut FormulaDraft,
    missing: Place,
    frames: &mut Vec<Frame>,
    bound: &mut BoundNames,
    from: u32,
) -> Result<Walked, Stop>
    ensures { Walks context.now.tree.now context.now.state.now context.now.inside missing frames.old.items bound.old frames.new.items bound.new draft.old draft.new from result }
{
    let mut i = from;
    loop {
        match step(context, draft, missing, frames, bound, i) {
            Err(stop) => return Err(stop),
            Ok(Step::Whole(value)) => return Ok(Walked::Whole(value)),
            Ok(Step::Universal { at, after }) => return Ok(Walked::Universal { at, after }),
            Ok(Step::At(next)) => i = next,
        }
    }
}
