//! Foralls: their variables, their bodies and what is round them.
ghost use Rattle.std.specs.Prelude.{◌≡◌, ◌+◌, ◌++◌, ◌∷◌, [], OnOk};
ghost use Rattle.smt_names.specs.Makes.{Checks, MakesItems};
ghost use Rattle.smt_names.specs.Names.{bound_of};
ghost use Rattle.formula_draft.specs.Draft.{Draft};
ghost use Rattle.smt_terms.specs.Reading.{from, no_binding, other_sort};
ghost use Rattle.smt_terms.specs.Terms.{attribute_if, body_of, is_annotation, is_pattern_key, patterns_in, variables_from};
ghost use Rattle.smt_terms.specs.Cursor.{word_at, trees_from};
ghost use Rattle.smt_terms.specs.Bodies.{attribute_at, attributes_at, IsAnnotated, IsBody, PassesAnnotation, SeesAnnotated};

use crate::checks::check_attributes;
use crate::cursor::{Seen, behind_one, behind_some, binding_at, kind_at, look, place_at, text_at};
use graph_terms::{Memory, Name};
use smt_names::{Bound, Refusal, SessionState, Stands, Stop, is_keyword, is_symbol};
use smt_text::{Place, Tree};
use std::alloc::Global;

/// Refuses a binding that comes next, at its name.
fn check_no_binding(alloc: Global, tree: &Tree, i: u32, refusal: Refusal) -> Result<(), Stop>
    ensures { Checks result (no_binding refusal (trees_from tree.now i)) }
{
    match binding_at(tree, i) {
        None => Ok(()),
        Some(binding) => Err(Stop::at(alloc, refusal, place_at(tree, binding.name))),
    }
}

/// At most so many bindings come next. The first that is too many is refused at its name.
pub fn check_few_bindings(
    alloc: Global,
    tree: &Tree,
    i: u32,
    most: u32,
    refusal: Refusal,
) -> Result<(), Stop>
    ensures { Checks result (no_binding refusal (from most (trees_from tree.now i))) }
{
    check_no_binding(alloc, tree, behind_some(tree, i, most), refusal)
}

/// The sort that the tree names which comes next. It must not be Bool.
pub fn other_sort_at(
    alloc: Global,
    state: &SessionState,
    tree: &Tree,
    i: u32,
    missing: Place,
) -> Result<u32, Stop>
    ensures { Checks result (other_sort state.now missing (trees_from tree.now i)) }
{
    match look(tree, i) {
        Seen::End => Err(Stop::at(alloc, Refusal::BadForm, missing)),
        Seen::List { .. } => Err(Stop::at(alloc, Refusal::NotInProfile, place_at(tree, i))),
        Seen::Token => {
            state.other_sort_of_token(kind_at(tree, i), place_at(tree, i), text_at(tree, i))
        }
    }
}

/// Puts a variable last.
fn push_variable(
    alloc: Global,
    variables: &mut Vec<Bound>,
    name: &[u8],
    stands: Stands,
) -> Result<(), Memory>
    ensures { OnOk result (variables.new.items ≡ variables.old.items ++ bound_of name.now stands ∷ []) }
{
    let name = Name::from_slice(alloc, name)?;
    variables.push(Bound { name, stands })?;
    Ok(())
}

/// The variables of the bindings that come next, whose form is right.
pub fn variables_at(
    alloc: Global,
    state: &SessionState,
    tree: &Tree,
    i: u32,
) -> Result<Vec<Bound>, Stop>
    ensures { (draft : Draft) → MakesItems result draft draft (variables_from state.now 0 (trees_from tree.now i)) }
{
    let mut variables = Vec::new(alloc);
    let mut index = 0;
    let mut at = i;
    loop {
        match binding_at(tree, at) {
            None => return Ok(variables),
            Some(binding) => {
                let place = place_at(tree, binding.name);
                match other_sort_at(alloc, state, tree, binding.name + 1, place) {
                    Err(stop) => return Err(stop),
                    Ok(sort) => {
                        if index == u32::MAX {
                            return Err(Stop::Memory);
                        }
                        let name = text_at(tree, binding.name);
                        push_variable(
                            alloc,
                            &mut variables,
                            name,
                            Stands::Variable { index, sort },
                        )?;
                    }
                }
                index += 1;
                at = binding.behind;
            }
        }
    }
}

/// Whether a token is the keyword of a trigger.
fn has_pattern_key(tree: &Tree, i: u32) -> bool
    ensures { result ≡ is_pattern_key (word_at tree.now i) }
{
    is_keyword(kind_at(tree, i)) && text_at(tree, i) == b":pattern".as_slice()
}

/// Puts a token last where it is the keyword of a trigger.
fn push_key(patterns: &mut Vec<u32>, tree: &Tree, i: u32) -> Result<(), Memory>
    ensures { OnOk result (attributes_at tree.now patterns.new.items ≡ attributes_at tree.now patterns.old.items ++ attribute_if (is_pattern_key (word_at tree.now i)) (attribute_at tree.now i)) }
{
    if !has_pattern_key(tree, i) {
        return Ok(());
    }
    patterns.push(i)?;
    Ok(())
}

/// Puts the keywords of the triggers among some attributes last.
fn gather(patterns: &mut Vec<u32>, tree: &Tree, i: u32) -> Result<(), Memory>
    ensures { OnOk result (attributes_at tree.now patterns.new.items ≡ attributes_at tree.now patterns.old.items ++ patterns_in (trees_from tree.now i)) }
{
    let mut at = i;
    loop {
        match look(tree, at) {
            Seen::End => return Ok(()),
            Seen::Token => {
                push_key(patterns, tree, at)?;
                at += 1;
            }
            Seen::List { after } => at = after,
        }
    }
}

/// Whether a token is the head of a list with attributes.
fn has_bang(tree: &Tree, i: u32) -> bool
    ensures { result ≡ is_annotation (word_at tree.now i) }
{
    is_symbol(kind_at(tree, i)) && text_at(tree, i) == b"!".as_slice()
}

/// Whether a list with attributes comes next.
fn is_annotated_at(tree: &Tree, i: u32) -> bool
    ensures { SeesAnnotated tree.now i result }
{
    match binding_at(tree, i) {
        None => false,
        Some(binding) => has_bang(tree, binding.name),
    }
}

/// A body: the keywords of the triggers round it, the outer ones first, and its place.
#[derive(Drop)]
pub(crate) struct Body {
    pub(crate) patterns: Vec<u32>,
    pub(crate) at: u32,
}

/// A list with attributes comes next: they are checked, and the keywords of their triggers are put last.
fn pass_annotation(alloc: Global, patterns: &mut Vec<u32>, tree: &Tree, i: u32) -> Result<(), Stop>
    requires { IsAnnotated tree.now i }
    ensures { PassesAnnotation tree.now patterns.old.items patterns.new.items i result }
{
    let _len = tree.len();
    let head = place_at(tree, i + 1);
    check_attributes(alloc, tree, i + 2, head)?;
    gather(patterns, tree, behind_one(tree, i + 2))?;
    Ok(())
}

/// The body of a forall that comes next, without the attributes round it.
pub(crate) fn read_body(alloc: Global, tree: &Tree, i: u32) -> Result<Body, Stop>
    ensures { IsBody tree.now result (body_of [] (trees_from tree.now i)) }
{
    let mut patterns = Vec::new(alloc);
    let mut at = i;
    while is_annotated_at(tree, at) {
        match pass_annotation(alloc, &mut patterns, tree, at) {
            Err(stop) => return Err(stop),
            Ok(()) => at += 2,
        }
    }
    Ok(Body { patterns, at })
}
