//! Checks of the form of lists.
ghost use Rattle.std.specs.Prelude.{◌≡◌, ◌<◌, ◌≤◌, ◌^◌, ◌*◌, ◌+◌, ◌-◌, ◌&&◌, not, [], false, length, bytes_eq, OnOk};
ghost use Rattle.std.specs.List.{list_any};
ghost use Rattle.smt_names.specs.declared.refusal.Refusal.TheVariants.{BadForm};
ghost use Rattle.smt_names.specs.Makes.{Checks};
ghost use Rattle.smt_names.specs.Names.{is_wide, word_of};
ghost use Rattle.smt_terms.specs.Reading.{no_more, at_least, at_most, exactly, bindings_after, binding_name, head_place, new_binding, one_or_more, attributes_after, attributes_of};
ghost use Rattle.smt_terms.specs.Cursor.{trees_from, word_at};
ghost use Rattle.smt_terms.specs.Checks.{ChecksAs, HasBindings};

use crate::cursor::{Seen, behind_one, behind_some, kind_at, look, place_at, text_at};
use crate::numbers::is_wide;
use smt_names::{DistinctNames, Refusal, Stop, check_lawful_name, is_keyword};
use smt_text::{Place, Tree};
use std::alloc::Global;

/// Refuses a tree that comes next.
pub fn check_no_more(alloc: Global, tree: &Tree, i: u32, refusal: Refusal) -> Result<(), Stop>
    ensures { Checks result (no_more refusal (trees_from tree.now i)) }
{
    match look(tree, i) {
        Seen::End => Ok(()),
        Seen::Token => Err(Stop::at(alloc, refusal, place_at(tree, i))),
        Seen::List { .. } => Err(Stop::at(alloc, refusal, place_at(tree, i))),
    }
}

/// At least so many trees come next. What is missing is bad form at that place.
pub fn check_at_least(
    alloc: Global,
    tree: &Tree,
    i: u32,
    count: u32,
    missing: Place,
) -> Result<(), Stop>
    ensures { Checks result (at_least count missing (trees_from tree.now i)) }
{
    let mut left = count;
    let mut at = i;
    while left > 0 {
        match look(tree, at) {
            Seen::End => return Err(Stop::at(alloc, Refusal::BadForm, missing)),
            Seen::Token => at += 1,
            Seen::List { after } => at = after,
        }
        left -= 1;
    }
    Ok(())
}

/// At most so many trees come next. The first of those that are too many is bad form.
pub fn check_at_most(alloc: Global, tree: &Tree, i: u32, count: u32) -> Result<(), Stop>
    ensures { Checks result (at_most count (trees_from tree.now i)) }
{
    check_no_more(alloc, tree, behind_some(tree, i, count), Refusal::BadForm)
}

/// So many trees come next.
pub fn check_exactly(
    alloc: Global,
    tree: &Tree,
    i: u32,
    count: u32,
    missing: Place,
) -> Result<(), Stop>
    ensures { Checks result (exactly count missing (trees_from tree.now i)) }
{
    check_at_least(alloc, tree, i, count, missing)?;
    check_at_most(alloc, tree, i, count)
}

/// A token comes next that may be the name of a binding: a lawful name that is none of these.
fn check_binding_name(
    alloc: Global,
    tree: &Tree,
    i: u32,
    names: &DistinctNames,
    missing: Place,
) -> Result<(), Stop>
    ensures check { ChecksAs result (word_at tree.now i) (new_binding names.now missing (trees_from tree.now i)) }
    ensures new { OnOk result (list_any (bytes_eq (word_at tree.now i).text) names.now ≡ false) }
{
    let place = place_at(tree, i);
    match look(tree, i) {
        Seen::End => Err(Stop::at(alloc, Refusal::BadForm, missing)),
        Seen::List { .. } => Err(Stop::at(alloc, Refusal::BadForm, place)),
        Seen::Token => {
            let name = text_at(tree, i);
            match check_lawful_name(alloc, kind_at(tree, i), place, name) {
                Err(stop) => Err(stop),
                Ok(()) => {
                    if names.contains(name) {
                        Err(Stop::at(alloc, Refusal::BadForm, place))
                    } else {
                        Ok(())
                    }
                }
            }
        }
    }
}

/// The place of the head of a list, the token that it begins with, or that of its parenthesis.
fn head_place_at(tree: &Tree, i: u32, paren: Place) -> Place
    ensures { result ≡ head_place paren (trees_from tree.now i) }
{
    match look(tree, i) {
        Seen::End => paren,
        Seen::Token => place_at(tree, i),
        Seen::List { .. } => paren,
    }
}

/// A binding begins at a parenthesis: a name, which must be lawful and none of these, and one tree more.
fn check_binding(alloc: Global, tree: &Tree, i: u32, names: &DistinctNames) -> Result<(), Stop>
    requires { i < length tree.now }
    ensures check { ChecksAs result (word_at tree.now (i + 1)) (binding_name names.now (word_at tree.now i) (trees_from tree.now (i + 1))) }
    ensures new { OnOk result (list_any (bytes_eq (word_at tree.now (i + 1)).text) names.now ≡ false) }
{
    let _len = tree.len();
    let paren = place_at(tree, i);
    check_exactly(alloc, tree, i + 1, 2, head_place_at(tree, i + 1, paren))?;
    check_binding_name(alloc, tree, i + 1, names, paren)
}

/// Bindings come next, to the end of the list, of which none has the name of an earlier one.
pub fn check_names(alloc: Global, tree: &Tree, i: u32) -> Result<(), Stop>
    ensures { Checks result (bindings_after [] (trees_from tree.now i)) }
{
    let mut names = DistinctNames::new(alloc);
    let mut at = i;
    loop {
        match look(tree, at) {
            Seen::End => return Ok(()),
            Seen::Token => return Err(Stop::at(alloc, Refusal::BadForm, place_at(tree, at))),
            Seen::List { after } => {
                match check_binding(alloc, tree, at, &names) {
                    Err(stop) => return Err(stop),
                    Ok(()) => names.push(text_at(tree, at + 1))?,
                }
                at = after;
            }
        }
    }
}

/// One binding or more come next, to the end of the list.
fn check_some_bindings(alloc: Global, tree: &Tree, i: u32, missing: Place) -> Result<(), Stop>
    ensures { Checks result (one_or_more missing (trees_from tree.now i)) }
{
    check_at_least(alloc, tree, i, 1, missing)?;
    check_names(alloc, tree, i)
}

/// A list of one binding or more comes next. The place behind it.
pub fn check_bindings(alloc: Global, tree: &Tree, i: u32, missing: Place) -> Result<u32, Stop>
    ensures { HasBindings tree.now i missing result }
{
    match look(tree, i) {
        Seen::End => Err(Stop::at(alloc, Refusal::BadForm, missing)),
        Seen::Token => Err(Stop::at(alloc, Refusal::BadForm, place_at(tree, i))),
        Seen::List { after } => {
            check_some_bindings(alloc, tree, i + 1, place_at(tree, i))?;
            Ok(after)
        }
    }
}

/// Whether a token is a numeral of more than 128 bits.
fn is_wide_at(tree: &Tree, i: u32) -> bool
    ensures { result ≡ is_wide (word_at tree.now i) }
{
    is_wide(kind_at(tree, i), text_at(tree, i))
}

/// Whether a token may be the value of a keyword.
fn may_be_value(valued: bool, tree: &Tree, i: u32) -> bool
    ensures { result ≡ (valued && not (is_wide (word_at tree.now i))) }
{
    valued && !is_wide_at(tree, i)
}

/// Attributes come next, to the end of the list.
fn check_attributes_after(alloc: Global, tree: &Tree, i: u32) -> Result<(), Stop>
    ensures { Checks result (attributes_after false (trees_from tree.now i)) }
{
    let mut valued = false;
    let mut at = i;
    loop {
        match look(tree, at) {
            Seen::End => return Ok(()),
            Seen::Token => {
                if is_keyword(kind_at(tree, at)) {
                    valued = true;
                } else {
                    if !may_be_value(valued, tree, at) {
                        return Err(Stop::at(alloc, Refusal::BadForm, place_at(tree, at)));
                    }
                    valued = false;
                }
                at += 1;
            }
            Seen::List { after } => {
                if !valued {
                    return Err(Stop::at(alloc, Refusal::BadForm, place_at(tree, at)));
                }
                valued = false;
                at = after;
            }
        }
    }
}

/// A tree and one attribute or more come next, to the end of the list.
pub fn check_attributes(alloc: Global, tree: &Tree, i: u32, head: Place) -> Result<(), Stop>
    ensures { Checks result (attributes_of head (trees_from tree.now i)) }
{
    check_at_least(alloc, tree, i, 2, head)?;
    check_attributes_after(alloc, tree, behind_one(tree, i))
}
