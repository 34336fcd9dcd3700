//! Elaborates a term.
ghost use Rattle.std.specs.Prelude.{◌≡◌, OnOk};
ghost use Rattle.smt_text.specs.declared.token.Place.{Place};
ghost use Rattle.smt_names.specs.Makes.{Makes};
ghost use Rattle.smt_terms.specs.Terms.{value};
ghost use Rattle.smt_terms.specs.Cursor.{word_at, trees_from, SeesList};
ghost use Rattle.smt_terms.specs.Machine.{scope_of, Advances, IsUniversalAt};

use crate::context::Context;
use crate::cursor::place_at;
use crate::foralls::put_forall;
use crate::frame::Frame;
use crate::giving::give;
use crate::next::Next;
use crate::walked::Walked;
use crate::walking::walk;
use formula_draft::FormulaDraft;
use smt_names::{Arg, BoundNames, Stop, Value};
use smt_text::Place;
use std::alloc::Global;

/// A forall outside foralls and definitions: its value goes to the innermost list.
fn pass_forall(
    context: &Context<'_>,
    draft: &mut FormulaDraft,
    frames: &mut Vec<Frame>,
    bound: &mut BoundNames,
    i: u32,
    after: u32,
) -> Result<Next, Stop>
    requires list { SeesList context.now.tree.now i after }
    requires universal { IsUniversalAt context.now.tree.now context.now.inside i }
    ensures { (missing : Place) → Advances context.now.tree.now context.now.state.now context.now.inside missing frames.old.items bound.old frames.new.items bound.new draft.old draft.new i result }
{
    let Context { alloc, tree, .. } = *context;
    let value = put_forall(context, draft, bound, i)?;
    let place = place_at(tree, i);
    match give(alloc, tree, frames, bound, after, Arg { place, value }) {
        Err(_) => Err(Stop::Memory),
        Ok(next) => Ok(next),
    }
}

/// Goes on behind the next forall, or to the value of the whole.
fn advance(
    context: &Context<'_>,
    draft: &mut FormulaDraft,
    missing: Place,
    frames: &mut Vec<Frame>,
    bound: &mut BoundNames,
    i: u32,
) -> Result<Next, Stop>
    ensures { Advances context.now.tree.now context.now.state.now context.now.inside missing frames.old.items bound.old frames.new.items bound.new draft.old draft.new i result }
{
    match walk(context, draft, missing, frames, bound, i) {
        Err(stop) => Err(stop),
        Ok(Walked::Whole(value)) => Ok(Next::Whole(value)),
        Ok(Walked::Universal { at, after }) => pass_forall(
            context, draft, frames, bound, at, after,
        ),
    }
}

/// The value of the tree at a place, where these names are bound. A tree that is missing is refused at the other place.
/// After an error the formula and the bound names are of no further use: some of what was under way may have been put.
pub fn elaborate_term(
    context: &Context<'_>,
    draft: &mut FormulaDraft,
    bound: &mut BoundNames,
    at: u32,
    missing: Place,
) -> Result<Value, Stop>
    ensures value { Makes result draft.old draft.new (value missing (scope_of context.now.state.now context.now.inside bound.old) (trees_from context.now.tree.now at)) }
    ensures bound { OnOk result (bound.new ≡ bound.old) }
{
    let mut frames = Vec::new(context.alloc);
    let mut i = at;
    loop {
        match advance(context, draft, missing, &mut frames, bound, i) {
            Err(stop) => return Err(stop),
            Ok(Next::Whole(value)) => return Ok(value),
            Ok(Next::At(next)) => i = next,
        }
    }
}
