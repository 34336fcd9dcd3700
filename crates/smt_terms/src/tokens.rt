//! What tokens stand for.
ghost use Rattle.std.specs.Prelude.{◌≡◌, option_copied, true, List, not, ◌||◌, is_some};
ghost use Rattle.smt_text.specs.declared.token.Kind.TheVariants.{Symbol};
ghost use Rattle.smt_names.specs.declared.bound.Bound.{Bound};
ghost use Rattle.smt_names.specs.Makes.{Makes};
ghost use Rattle.smt_names.specs.Names.{State, named, bound_as, word_of};
ghost use Rattle.smt_terms.specs.Terms.{stood_for, free_value, name_value, token_value};
ghost use Rattle.smt_terms.specs.Cursor.{word_at};
ghost use Rattle.smt_terms.specs.Machine.{scope_of};

use crate::context::Context;
use crate::cursor::{kind_at, place_at, text_at};
use crate::inside::Inside;
use formula_draft::{DraftRow, FormulaDraft};
use smt_forms::{Site, apply, put_row};
use smt_names::{BoundNames, Head, Refusal, SessionState, Stands, Stop, Value, is_reserved};
use smt_text::{Kind, Place};
use std::alloc::Global;

/// Whether a value may stand where it does: inside a forall a formula must have a complement.
fn may_stand(inside: Inside, complement: Option<u32>) -> bool
    ensures { result ≡ (not inside.in_forall || is_some complement) }
{
    !inside.in_forall || complement.is_some()
}

/// What a bound name stands for.
fn put_stands(
    alloc: Global,
    draft: &mut FormulaDraft,
    inside: Inside,
    at: Place,
    stands: Stands,
) -> Result<Value, Stop>
    ensures { (state : State) (bound : List Bound) → Makes result draft.old draft.new (stood_for (scope_of state inside bound) at stands) }
{
    match stands {
        Stands::Given(Value::Term { row, sort }) => Ok(Value::Term { row, sort }),
        Stands::Given(Value::Formula { itself, complement }) => {
            if may_stand(inside, complement) {
                Ok(Value::Formula { itself, complement })
            } else {
                Err(Stop::at(alloc, Refusal::NotInProfile, at))
            }
        }
        Stands::Variable { index, sort } => {
            let row = put_row(alloc, draft, at, DraftRow::Var { index })?;
            Ok(Value::Term { row, sort })
        }
    }
}

/// What a name without arguments stands for that is not bound.
fn put_free(
    alloc: Global,
    draft: &mut FormulaDraft,
    state: &SessionState,
    at: Place,
    name: &[u8],
) -> Result<Value, Stop>
    ensures { Makes result draft.old draft.new (free_value (word_of Symbol at name.now) (named state.now name.now)) }
{
    match state.head(name) {
        Head::Unknown => {
            if is_reserved(name) {
                Err(Stop::at(alloc, Refusal::BadForm, at))
            } else {
                Err(Stop::of_name(alloc, Refusal::UnknownName, at, name))
            }
        }
        head => {
            let site = Site { at, head: at };
            apply(alloc, draft, state, site, name, head, &[])
        }
    }
}

/// What a name without arguments stands for.
fn put_name(
    alloc: Global,
    draft: &mut FormulaDraft,
    state: &SessionState,
    bound: &BoundNames,
    inside: Inside,
    at: Place,
    name: &[u8],
) -> Result<Value, Stop>
    ensures { Makes result draft.old draft.new (name_value (scope_of state.now inside bound.now) (word_of Symbol at name.now) (bound_as bound.now name.now)) }
{
    match bound.find(name) {
        Some(b) => put_stands(alloc, draft, inside, at, b.stands),
        None => put_free(alloc, draft, state, at, name),
    }
}

/// What a token stands for.
#[tactic(auto, unfolding(crate::specs::Terms::token_value))]
pub(crate) fn put_token(
    context: &Context<'_>,
    draft: &mut FormulaDraft,
    bound: &BoundNames,
    i: u32,
) -> Result<Value, Stop>
    ensures { Makes result draft.old draft.new (token_value (scope_of context.now.state.now context.now.inside bound.now) (word_at context.now.tree.now i)) }
{
    let alloc = context.alloc;
    let tree = context.tree;
    let place = place_at(tree, i);
    match kind_at(tree, i) {
        Kind::Symbol => {
            let name = text_at(tree, i);
            put_name(
                alloc,
                draft,
                context.state,
                bound,
                context.inside,
                place,
                name,
            )
        }
        Kind::Left | Kind::Right | Kind::Keyword => Err(Stop::at(alloc, Refusal::BadForm, place)),
        Kind::Numeral | Kind::Decimal | Kind::Hex | Kind::Binary | Kind::Text => {
            Err(Stop::at(alloc, Refusal::NotInProfile, place))
        }
    }
}
