//! Opens lists.
ghost use Rattle.std.specs.Prelude.{◌≡◌, ◌<◌, ◌+◌, true, length};
ghost use Rattle.smt_names.specs.Names.{State, bound_as};
ghost use Rattle.smt_terms.specs.declared.inside.Inside.{Inside};
ghost use Rattle.smt_terms.specs.Terms.{form_of, form_value, let_value, annotated_value, forall_value, unbound_value, list_value};
ghost use Rattle.smt_terms.specs.Cursor.{word_at, trees_from, SeesList, SeesToken};
ghost use Rattle.smt_terms.specs.Machine.{IsHeadOf, Opens, OpensForall, work_in};

use crate::checks::{check_attributes, check_bindings, check_exactly};
use crate::context::Context;
use crate::cursor::{Seen, kind_at, look, place_at, text_at};
use crate::form::Form;
use crate::frame::Frame;
use crate::giving::enter_binding;
use crate::inside::Inside;
use crate::opened::Opened;
use crate::round::Round;
use crate::work::Work;
use smt_names::{BoundNames, Head, Refusal, SessionState, Stop, is_reserved, is_symbol};
use smt_text::Tree;
use std::alloc::Global;

/// What a head makes of a list.
#[tactic(auto, unfolding(crate::specs::Terms::form_of))]
fn form_of_head(name: &[u8]) -> Form
    ensures { result ≡ form_of name.now }
{
    if name == b"let".as_slice() {
        Form::Let
    } else if name == b"!".as_slice() {
        Form::Annotated
    } else if name == b"forall".as_slice() {
        Form::Universal
    } else if is_reserved(name) {
        Form::Foreign
    } else {
        Form::Application
    }
}

/// A `let` begins: its form is checked, and its first binding is under way.
fn open_let(
    alloc: Global,
    tree: &Tree,
    frames: &mut Vec<Frame>,
    bound: &mut BoundNames,
    i: u32,
    after: u32,
) -> Result<Opened, Stop>
    requires { SeesToken tree.now (i + 1) }
    ensures { (state : State) (inside : Inside) → Opens tree.now state inside frames.old.items bound.old frames.new.items bound.new i after (3 + work_in tree.now frames.old.items (i + 2) after) (let_value (word_at tree.now (i + 1)).place (trees_from tree.now (i + 2))) result }
{
    let _len = tree.len();
    let head = place_at(tree, i + 1);
    let parts = i + 2;
    check_exactly(alloc, tree, parts, 2, head)?;
    let body = check_bindings(alloc, tree, parts, head)?;
    let round = Round {
        paren: place_at(tree, i),
        head,
        after,
    };
    let none = Vec::new(alloc);
    match enter_binding(tree, frames, bound, &round, none, parts + 1, body) {
        Err(_) => Err(Stop::Memory),
        Ok(at) => Ok(Opened::At(at)),
    }
}

/// A term with attributes begins: they are checked, and the term is under way.
fn open_annotated(
    alloc: Global,
    tree: &Tree,
    frames: &mut Vec<Frame>,
    bound: &BoundNames,
    i: u32,
    after: u32,
) -> Result<Opened, Stop>
    requires { SeesToken tree.now (i + 1) }
    ensures { (state : State) (inside : Inside) → Opens tree.now state inside frames.old.items bound.now frames.new.items bound.now i after (3 + work_in tree.now frames.old.items (i + 2) after) (annotated_value (word_at tree.now (i + 1)).place (trees_from tree.now (i + 2))) result }
{
    let _len = tree.len();
    let head = place_at(tree, i + 1);
    check_attributes(alloc, tree, i + 2, head)?;
    frames.push(Frame {
        paren: place_at(tree, i),
        head,
        after,
        work: Work::Pass { bound: bound.len() },
    })?;
    Ok(Opened::At(i + 2))
}

/// What a name stands for, where it stands for something.
fn known_head(state: &SessionState, name: &[u8]) -> Option<Head>
    ensures { IsHeadOf state.now name.now result }
{
    match state.head(name) {
        Head::Unknown => None,
        Head::Core(connective) => Some(Head::Core(connective)),
        Head::Function(n) => Some(Head::Function(n)),
        Head::Definition(n) => Some(Head::Definition(n)),
    }
}

/// An application begins: its head is looked up, and its arguments are under way.
fn open_application(
    alloc: Global,
    state: &SessionState,
    tree: &Tree,
    frames: &mut Vec<Frame>,
    bound: &BoundNames,
    i: u32,
    after: u32,
) -> Result<Opened, Stop>
    requires { SeesToken tree.now (i + 1) }
    ensures { (inside : Inside) → Opens tree.now state.now inside frames.old.items bound.now frames.new.items bound.now i after (3 + work_in tree.now frames.old.items (i + 2) after) (form_value (word_at tree.now i).place (word_at tree.now (i + 1)) (trees_from tree.now (i + 2)) Form.Application) result }
{
    let _len = tree.len();
    let head = place_at(tree, i + 1);
    let name = text_at(tree, i + 1);
    match bound.find(name) {
        Some(_) => Err(Stop::of_name(alloc, Refusal::WrongArity, head, name)),
        None => match known_head(state, name) {
            None => Err(Stop::of_name(alloc, Refusal::UnknownName, head, name)),
            Some(called) => {
                frames.push(Frame {
                    paren: place_at(tree, i),
                    head,
                    after,
                    work: Work::Apply {
                        called: i + 1,
                        head: called,
                        args: Vec::new(alloc),
                    },
                })?;
                Ok(Opened::At(i + 2))
            }
        },
    }
}

/// A forall begins: it stands outside foralls and definitions.
fn open_universal(alloc: Global, tree: &Tree, inside: Inside, i: u32) -> Result<Opened, Stop>
    requires { SeesToken tree.now (i + 1) }
    ensures { OpensForall tree.now inside i result }
{
    let _len = tree.len();
    if inside.in_forall || inside.in_definition {
        return Err(Stop::at(alloc, Refusal::NotInProfile, place_at(tree, i + 1)));
    }
    Ok(Opened::Universal)
}

/// A list begins whose head is a symbol.
fn open_form(
    context: &Context<'_>,
    frames: &mut Vec<Frame>,
    bound: &mut BoundNames,
    i: u32,
    after: u32,
) -> Result<Opened, Stop>
    requires { SeesToken context.now.tree.now (i + 1) }
    ensures { Opens context.now.tree.now context.now.state.now context.now.inside frames.old.items bound.old frames.new.items bound.new i after (3 + work_in context.now.tree.now frames.old.items (i + 2) after) (form_value (word_at context.now.tree.now i).place (word_at context.now.tree.now (i + 1)) (trees_from context.now.tree.now (i + 2)) (form_of (word_at context.now.tree.now (i + 1)).text)) result }
{
    let Context {
        alloc,
        state,
        tree,
        inside,
    } = *context;
    let _len = tree.len();
    let head = place_at(tree, i + 1);
    match form_of_head(text_at(tree, i + 1)) {
        Form::Let => open_let(alloc, tree, frames, bound, i, after),
        Form::Annotated => open_annotated(alloc, tree, frames, bound, i, after),
        Form::Universal => open_universal(alloc, tree, inside, i),
        Form::Foreign => Err(Stop::at(alloc, Refusal::NotInProfile, head)),
        Form::Application => open_application(alloc, state, tree, frames, bound, i, after),
    }
}

/// A list begins.
pub(crate) fn open_list(
    context: &Context<'_>,
    frames: &mut Vec<Frame>,
    bound: &mut BoundNames,
    i: u32,
    after: u32,
) -> Result<Opened, Stop>
    requires { SeesList context.now.tree.now i after }
    ensures { Opens context.now.tree.now context.now.state.now context.now.inside frames.old.items bound.old frames.new.items bound.new i after (2 + work_in context.now.tree.now frames.old.items (i + 1) after) (list_value (word_at context.now.tree.now i) (trees_from context.now.tree.now (i + 1))) result }
{
    let Context { alloc, tree, .. } = *context;
    let _len = tree.len();
    let head = i + 1;
    match look(tree, head) {
        Seen::End => Err(Stop::at(alloc, Refusal::BadForm, place_at(tree, i))),
        Seen::List { .. } => Err(Stop::at(alloc, Refusal::NotInProfile, place_at(tree, head))),
        Seen::Token => {
            if is_symbol(kind_at(tree, head)) {
                open_form(context, frames, bound, i, after)
            } else {
                Err(Stop::at(alloc, Refusal::BadForm, place_at(tree, head)))
            }
        }
    }
}
