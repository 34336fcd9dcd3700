//! Commands that declare names and set options.
ghost use Rattle.std.specs.Prelude.{◌≡◌, None, OnOk, OnErr, bytes_eq, codes};
ghost use Rattle.smt_names.specs.Makes.{Checks};
ghost use Rattle.smt_names.specs.Names.{head_of, sort_number};
ghost use Rattle.smt_names.specs.declared.head.Head.TheVariants.{Unknown};
ghost use Rattle.smt_terms.specs.Checks.{ChecksAs};
ghost use Rattle.smt_terms.specs.Cursor.{trees_from, word_at};
ghost use Rattle.smt_commands.specs.Answers.{Answers};
ghost use Rattle.smt_commands.specs.Commands.{begun, constant_first, declare_const, declare_fun, declare_sort, named_form, plain_sort, set_option, set_other, set_print_success, sort_form, truth_first, truth_named};

use crate::command::Command;
use crate::parts::{
    check_new_function, check_new_sort, check_no_arguments, check_plain_value, check_symbol,
    signature_at, sort_at,
};
use crate::reading::check_key;
use graph_terms::Numbers;
use smt_names::{Refusal, SessionState, Signature, Stop};
use smt_terms::{behind_one, check_exactly, place_at, text_at};
use smt_text::{Place, Tree};
use std::alloc::Global;

/// Whether a token is the name of the option that success is printed.
fn is_success_key(tree: &Tree, i: u32) -> bool
    ensures { result ≡ bytes_eq (word_at tree.now i).text (codes ":print-success") }
{
    text_at(tree, i) == b":print-success".as_slice()
}

/// The truth value that a token names.
fn truth_of(alloc: Global, tree: &Tree, i: u32) -> Result<bool, Stop>
    ensures { Checks result (truth_named (word_at tree.now i)) }
{
    let text = text_at(tree, i);
    if text == b"true".as_slice() {
        return Ok(true);
    }
    if text == b"false".as_slice() {
        return Ok(false);
    }
    Err(Stop::at(alloc, Refusal::BadForm, place_at(tree, i)))
}

/// A truth value must come next.
fn truth_at(alloc: Global, tree: &Tree, i: u32, missing: Place) -> Result<bool, Stop>
    ensures { Checks result (truth_first missing (trees_from tree.now i)) }
{
    check_symbol(alloc, tree, i, missing)?;
    truth_of(alloc, tree, i)
}

/// Whether success is printed is set.
fn set_print_success(
    alloc: Global,
    state: &mut SessionState,
    tree: &Tree,
    i: u32,
    head: Place,
) -> Result<Command, Stop>
    ensures answer { Answers result state.new (begun state.old (set_print_success state.old head (trees_from tree.now i))) }
    ensures err { OnErr result (state.new ≡ state.old) }
{
    let prints = truth_at(alloc, tree, i, head)?;
    state.set_prints_success(prints);
    Ok(Command::Silent)
}

/// An option that is not supported is set.
fn set_other(alloc: Global, state: &SessionState, tree: &Tree, i: u32) -> Result<Command, Stop>
    ensures { Answers result state.now (begun state.now (set_other state.now (trees_from tree.now i))) }
{
    check_plain_value(alloc, tree, i)?;
    Ok(Command::Unsupported)
}

/// An option is set.
pub(crate) fn set_option(
    alloc: Global,
    state: &mut SessionState,
    tree: &Tree,
    i: u32,
    head: Place,
) -> Result<Command, Stop>
    ensures answer { Answers result state.new (begun state.old (set_option state.old head (trees_from tree.now i))) }
    ensures err { OnErr result (state.new ≡ state.old) }
{
    check_key(alloc, tree, i, head)?;
    let value = behind_one(tree, i);
    if is_success_key(tree, i) {
        set_print_success(alloc, state, tree, value, head)
    } else {
        set_other(alloc, state, tree, value)
    }
}

/// A new name of a sort comes first, and then 0.
fn check_plain_sort(
    alloc: Global,
    state: &SessionState,
    tree: &Tree,
    i: u32,
    head: Place,
) -> Result<(), Stop>
    ensures check { ChecksAs result (word_at tree.now i) (plain_sort state.now head (trees_from tree.now i)) }
    ensures new { OnOk result (sort_number state.now (word_at tree.now i).text ≡ None) }
{
    check_new_sort(alloc, state, tree, i, head)?;
    check_no_arguments(alloc, tree, behind_one(tree, i), head)
}

/// A new name of a sort, and 0.
fn check_sort(
    alloc: Global,
    state: &SessionState,
    tree: &Tree,
    i: u32,
    head: Place,
) -> Result<(), Stop>
    ensures check { ChecksAs result (word_at tree.now i) (sort_form state.now head (trees_from tree.now i)) }
    ensures new { OnOk result (sort_number state.now (word_at tree.now i).text ≡ None) }
{
    check_exactly(alloc, tree, i, 2, head)?;
    check_plain_sort(alloc, state, tree, i, head)
}

/// A sort is declared.
pub(crate) fn declare_sort(
    alloc: Global,
    state: &mut SessionState,
    tree: &Tree,
    i: u32,
    head: Place,
) -> Result<Command, Stop>
    ensures answer { Answers result state.new (begun state.old (declare_sort state.old head (trees_from tree.now i))) }
    ensures err { OnErr result (state.new ≡ state.old) }
{
    check_sort(alloc, state, tree, i, head)?;
    state.declare_sort(text_at(tree, i))?;
    Ok(Command::Silent)
}

/// So many parts, and first a new name of a function.
pub(crate) fn check_named(
    alloc: Global,
    state: &SessionState,
    tree: &Tree,
    i: u32,
    count: u32,
    head: Place,
) -> Result<(), Stop>
    ensures check { ChecksAs result (word_at tree.now i) (named_form count state.now head (trees_from tree.now i)) }
    ensures new { OnOk result (head_of state.now (word_at tree.now i).text ≡ Unknown) }
{
    check_exactly(alloc, tree, i, count, head)?;
    check_new_function(alloc, state, tree, i, head)
}

/// A function is declared.
pub(crate) fn declare_fun(
    alloc: Global,
    state: &mut SessionState,
    tree: &Tree,
    i: u32,
    head: Place,
) -> Result<Command, Stop>
    ensures answer { Answers result state.new (begun state.old (declare_fun state.old head (trees_from tree.now i))) }
    ensures err { OnErr result (state.new ≡ state.old) }
{
    check_named(alloc, state, tree, i, 3, head)?;
    let sorts = signature_at(alloc, state, tree, behind_one(tree, i), head)?;
    state.declare_function(text_at(tree, i), sorts)?;
    Ok(Command::Silent)
}

/// The sorts of a constant must come next.
fn constant_at(
    alloc: Global,
    state: &SessionState,
    tree: &Tree,
    i: u32,
    missing: Place,
) -> Result<Signature, Stop>
    ensures { Checks result (constant_first state.now missing (trees_from tree.now i)) }
{
    let sort = sort_at(alloc, state, tree, i, missing)?;
    let arguments = Numbers::from_slice(alloc, &[])?;
    Ok(Signature { arguments, sort })
}

/// A constant is declared.
pub(crate) fn declare_const(
    alloc: Global,
    state: &mut SessionState,
    tree: &Tree,
    i: u32,
    head: Place,
) -> Result<Command, Stop>
    ensures answer { Answers result state.new (begun state.old (declare_const state.old head (trees_from tree.now i))) }
    ensures err { OnErr result (state.new ≡ state.old) }
{
    check_named(alloc, state, tree, i, 2, head)?;
    let sorts = constant_at(alloc, state, tree, behind_one(tree, i), head)?;
    state.declare_function(text_at(tree, i), sorts)?;
    Ok(Command::Silent)
}
