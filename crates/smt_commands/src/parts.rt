//! The parts of commands.
ghost use Rattle.std.specs.Prelude.{◌≡◌, ◌||◌, OnOk, None, not};
ghost use Rattle.smt_names.specs.Names.{is_keyword, is_wide as wide, head_of, new_function_name, new_sort_name, sort_number};
ghost use Rattle.smt_names.specs.Makes.{Checks, MakesItems};
ghost use Rattle.formula_draft.specs.Draft.{Draft};
ghost use Rattle.smt_terms.specs.Checks.{ChecksAs};
ghost use Rattle.smt_terms.specs.Cursor.{trees_from, word_at};
ghost use Rattle.smt_terms.specs.Reading.{first_place, list_first, sort_first, token_first};
ghost use Rattle.smt_text.specs.Word.{Word};
ghost use Rattle.smt_names.specs.declared.head.Head.TheVariants.{Unknown};
ghost use Rattle.smt_commands.specs.Answers.{HasList};
ghost use Rattle.smt_commands.specs.Commands.{argument_sorts, arguments_first, keyword_first, new_function, new_sort, no_arguments, numeral_first, other_sorts, plain_value, signature_first, symbol_first};

use graph_terms::{MOST_ARGS, Numbers};
use smt_names::{Refusal, SessionState, Signature, Stop, is_keyword, is_numeral, is_symbol};
use smt_terms::{
    Seen, behind_one, behind_some, check_no_more, is_wide, kind_at, look, number_of, other_sort_at,
    place_at, text_at,
};
use smt_text::{Place, Tree};
use std::alloc::Global;

/// The place of the tree that comes next, and this one where none does.
pub(crate) fn first_place_at(tree: &Tree, i: u32, none: Place) -> Place
    ensures { result ≡ first_place none (trees_from tree.now i) }
{
    match look(tree, i) {
        Seen::End => none,
        Seen::Token => place_at(tree, i),
        Seen::List { .. } => place_at(tree, i),
    }
}

/// A token must come next.
pub(crate) fn check_token(alloc: Global, tree: &Tree, i: u32, missing: Place) -> Result<(), Stop>
    ensures { ChecksAs result (word_at tree.now i) (token_first missing (trees_from tree.now i)) }
{
    match look(tree, i) {
        Seen::End => Err(Stop::at(alloc, Refusal::BadForm, missing)),
        Seen::Token => Ok(()),
        Seen::List { .. } => Err(Stop::at(alloc, Refusal::BadForm, place_at(tree, i))),
    }
}

/// A list must come next: the place of what is in it.
pub(crate) fn check_list(alloc: Global, tree: &Tree, i: u32, missing: Place) -> Result<u32, Stop>
    ensures { HasList tree.now i result (list_first missing (trees_from tree.now i)) }
{
    match look(tree, i) {
        Seen::End => Err(Stop::at(alloc, Refusal::BadForm, missing)),
        Seen::Token => Err(Stop::at(alloc, Refusal::BadForm, place_at(tree, i))),
        Seen::List { .. } => Ok(i + 1),
    }
}

/// A keyword must come next.
pub(crate) fn check_keyword(alloc: Global, tree: &Tree, i: u32, missing: Place) -> Result<(), Stop>
    ensures { ChecksAs result (word_at tree.now i) (keyword_first missing (trees_from tree.now i)) }
{
    check_token(alloc, tree, i, missing)?;
    if is_keyword(kind_at(tree, i)) {
        Ok(())
    } else {
        Err(Stop::at(alloc, Refusal::BadForm, place_at(tree, i)))
    }
}

/// A symbol must come next.
pub(crate) fn check_symbol(alloc: Global, tree: &Tree, i: u32, missing: Place) -> Result<(), Stop>
    ensures { ChecksAs result (word_at tree.now i) (symbol_first missing (trees_from tree.now i)) }
{
    check_token(alloc, tree, i, missing)?;
    if is_symbol(kind_at(tree, i)) {
        Ok(())
    } else {
        Err(Stop::at(alloc, Refusal::BadForm, place_at(tree, i)))
    }
}

/// Whether a token is a numeral of more than 128 bits.
fn is_wide_at(tree: &Tree, i: u32) -> bool
    ensures { result ≡ wide (word_at tree.now i) }
{
    is_wide(kind_at(tree, i), text_at(tree, i))
}

/// A numeral of at most 128 bits must come next: its number.
pub(crate) fn numeral_at(alloc: Global, tree: &Tree, i: u32, missing: Place) -> Result<u128, Stop>
    ensures { Checks result (numeral_first missing (trees_from tree.now i)) }
{
    check_token(alloc, tree, i, missing)?;
    if !is_numeral(kind_at(tree, i)) {
        return Err(Stop::at(alloc, Refusal::BadForm, place_at(tree, i)));
    }
    match number_of(text_at(tree, i)) {
        None => Err(Stop::at(alloc, Refusal::BadForm, place_at(tree, i))),
        Some(number) => Ok(number),
    }
}

/// Whether a token may be the value of an option or an information: it is neither a keyword nor a numeral of more than
/// 128 bits.
fn is_plain(tree: &Tree, i: u32) -> bool
    ensures { result ≡ not (is_keyword (word_at tree.now i).kind || wide (word_at tree.now i)) }
{
    !(is_keyword(kind_at(tree, i)) || is_wide_at(tree, i))
}

/// The value of an option or an information may come next.
pub(crate) fn check_plain_value(alloc: Global, tree: &Tree, i: u32) -> Result<(), Stop>
    ensures { Checks result (plain_value (trees_from tree.now i)) }
{
    match look(tree, i) {
        Seen::End => Ok(()),
        Seen::List { .. } => Ok(()),
        Seen::Token => {
            if is_plain(tree, i) {
                Ok(())
            } else {
                Err(Stop::at(alloc, Refusal::BadForm, place_at(tree, i)))
            }
        }
    }
}

/// The number of arguments of a sort must come next, which is 0.
pub(crate) fn check_no_arguments(
    alloc: Global,
    tree: &Tree,
    i: u32,
    missing: Place,
) -> Result<(), Stop>
    ensures { Checks result (no_arguments missing (trees_from tree.now i)) }
{
    let count = numeral_at(alloc, tree, i, missing)?;
    if count == 0 {
        Ok(())
    } else {
        let place = first_place_at(tree, i, missing);
        Err(Stop::at(alloc, Refusal::NotInProfile, place))
    }
}

/// The sort that the tree names which comes next.
pub(crate) fn sort_at(
    alloc: Global,
    state: &SessionState,
    tree: &Tree,
    i: u32,
    missing: Place,
) -> Result<u32, Stop>
    ensures { Checks result (sort_first state.now missing (trees_from tree.now i)) }
{
    match look(tree, i) {
        Seen::End => Err(Stop::at(alloc, Refusal::BadForm, missing)),
        Seen::List { .. } => Err(Stop::at(alloc, Refusal::NotInProfile, place_at(tree, i))),
        Seen::Token => state.sort_of_token(kind_at(tree, i), place_at(tree, i), text_at(tree, i)),
    }
}

/// The token may be the name of a sort.
fn check_sort_name_at(state: &SessionState, tree: &Tree, i: u32) -> Result<(), Stop>
    ensures check { Checks result (new_sort_name state.now (word_at tree.now i)) }
    ensures new { OnOk result (sort_number state.now (word_at tree.now i).text ≡ None) }
{
    state.check_sort_name(kind_at(tree, i), place_at(tree, i), text_at(tree, i))
}

/// A token must come next that may be the name of a sort.
pub(crate) fn check_new_sort(
    alloc: Global,
    state: &SessionState,
    tree: &Tree,
    i: u32,
    missing: Place,
) -> Result<(), Stop>
    ensures check { ChecksAs result (word_at tree.now i) (new_sort state.now missing (trees_from tree.now i)) }
    ensures new { OnOk result (sort_number state.now (word_at tree.now i).text ≡ None) }
{
    check_token(alloc, tree, i, missing)?;
    check_sort_name_at(state, tree, i)?;
    Ok(())
}

/// The token may be the name of a function.
fn check_function_name_at(state: &SessionState, tree: &Tree, i: u32) -> Result<(), Stop>
    ensures check { Checks result (new_function_name state.now (word_at tree.now i)) }
    ensures new { OnOk result (head_of state.now (word_at tree.now i).text ≡ Unknown) }
{
    state.check_function_name(kind_at(tree, i), place_at(tree, i), text_at(tree, i))
}

/// A token must come next that may be the name of a function.
pub(crate) fn check_new_function(
    alloc: Global,
    state: &SessionState,
    tree: &Tree,
    i: u32,
    missing: Place,
) -> Result<(), Stop>
    ensures check { ChecksAs result (word_at tree.now i) (new_function state.now missing (trees_from tree.now i)) }
    ensures new { OnOk result (head_of state.now (word_at tree.now i).text ≡ Unknown) }
{
    check_token(alloc, tree, i, missing)?;
    check_function_name_at(state, tree, i)?;
    Ok(())
}

/// Sorts other than Bool come next, to the end of the list.
fn other_sorts_at(
    alloc: Global,
    state: &SessionState,
    tree: &Tree,
    i: u32,
    missing: Place,
) -> Result<Vec<u32>, Stop>
    ensures { (draft : Draft) → MakesItems result draft draft (other_sorts state.now missing (trees_from tree.now i)) }
{
    let mut sorts = Vec::new(alloc);
    let mut at = i;
    loop {
        match look(tree, at) {
            Seen::End => return Ok(sorts),
            Seen::Token => {
                match other_sort_at(alloc, state, tree, at, missing) {
                    Err(stop) => return Err(stop),
                    Ok(sort) => sorts.push(sort)?,
                }
                at += 1;
            }
            Seen::List { after } => {
                match other_sort_at(alloc, state, tree, at, missing) {
                    Err(stop) => return Err(stop),
                    Ok(sort) => sorts.push(sort)?,
                }
                at = after;
            }
        }
    }
}

/// At most `MOST_ARGS` sorts of arguments come next in the list at a parenthesis.
fn argument_sorts_at(
    alloc: Global,
    state: &SessionState,
    tree: &Tree,
    paren: u32,
    inner: u32,
) -> Result<Numbers, Stop>
    ensures { Checks result (argument_sorts state.now (record { paren = word_at tree.now paren; inner = trees_from tree.now inner })) }
{
    let behind = behind_some(tree, inner, MOST_ARGS);
    check_no_more(alloc, tree, behind, Refusal::TooManyArguments)?;
    let sorts = other_sorts_at(alloc, state, tree, inner, place_at(tree, paren))?;
    Ok(Numbers::from_slice(alloc, sorts.as_slice())?)
}

/// A list of at most `MOST_ARGS` sorts of arguments must come next.
fn arguments_at(
    alloc: Global,
    state: &SessionState,
    tree: &Tree,
    i: u32,
    missing: Place,
) -> Result<Numbers, Stop>
    ensures { Checks result (arguments_first state.now missing (trees_from tree.now i)) }
{
    let inner = check_list(alloc, tree, i, missing)?;
    argument_sorts_at(alloc, state, tree, i, inner)
}

/// The sorts of a function must come next: a list of those of its arguments, and its own.
pub(crate) fn signature_at(
    alloc: Global,
    state: &SessionState,
    tree: &Tree,
    i: u32,
    missing: Place,
) -> Result<Signature, Stop>
    ensures { Checks result (signature_first state.now missing (trees_from tree.now i)) }
{
    let arguments = arguments_at(alloc, state, tree, i, missing)?;
    let sort = sort_at(alloc, state, tree, behind_one(tree, i), missing)?;
    Ok(Signature { arguments, sort })
}
