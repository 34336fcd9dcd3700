//! Commands that open and close levels, and those that take all back.
ghost use Rattle.std.specs.Prelude.{◌≡◌, ◌+◌, ◌≤◌, nat_le, length, IfOk, OnErr};
ghost use Rattle.smt_names.specs.Makes.{Checks};
ghost use Rattle.smt_names.specs.Names.{at_start, cleared};
ghost use Rattle.smt_terms.specs.Cursor.{trees_from};
ghost use Rattle.smt_commands.specs.declared.command.Command.TheVariants.{Reset, ResetAssertions};
ghost use Rattle.smt_commands.specs.Answers.{Answers};
ghost use Rattle.smt_commands.specs.Commands.{alone, begun, level_form, levels_asked, pop_form, pop_levels, push_form, push_levels};

use crate::command::Command;
use crate::parts::{first_place_at, numeral_at};
use smt_names::{Refusal, SessionState, Stop};
use smt_terms::{Seen, check_at_most, look, place_at};
use smt_text::{Place, Tree};
use std::alloc::Global;

/// How many levels are asked for: the number that comes next, or 1.
fn levels_asked_at(alloc: Global, tree: &Tree, i: u32, head: Place) -> Result<u128, Stop>
    ensures { Checks result (levels_asked head (trees_from tree.now i)) }
{
    match look(tree, i) {
        Seen::End => Ok(1),
        Seen::Token => numeral_at(alloc, tree, i, head),
        Seen::List { .. } => Err(Stop::at(alloc, Refusal::BadForm, place_at(tree, i))),
    }
}

/// How many levels are asked for, in at most one part.
fn level_count_at(alloc: Global, tree: &Tree, i: u32, head: Place) -> Result<u128, Stop>
    ensures { Checks result (level_form head (trees_from tree.now i)) }
{
    check_at_most(alloc, tree, i, 1)?;
    levels_asked_at(alloc, tree, i, head)
}

/// Whether so many levels more may be open.
fn has_room(state: &SessionState, count: u128) -> bool
    ensures { result ≡ nat_le (length state.now.levels + count) state.now.limits.levels }
{
    let most = u128::from(state.limits().levels);
    let open = u128::from(state.levels());
    count <= most && open + count <= most
}

/// As many levels as may be opened.
fn push_count_at(
    alloc: Global,
    state: &SessionState,
    tree: &Tree,
    i: u32,
    head: Place,
) -> Result<u32, Stop>
    ensures form { Checks result (push_form state.now head (trees_from tree.now i)) }
    ensures room { IfOk result (λ n. length state.now.levels + n ≤ state.now.limits.levels) }
{
    let _most = state.limits();
    let count = level_count_at(alloc, tree, i, head)?;
    if has_room(state, count) {
        Ok(count as u32)
    } else {
        let place = first_place_at(tree, i, head);
        Err(Stop::at(alloc, Refusal::LevelsFull, place))
    }
}

/// Levels are opened.
pub(crate) fn push_levels(
    alloc: Global,
    state: &mut SessionState,
    tree: &Tree,
    i: u32,
    head: Place,
) -> Result<Command, Stop>
    ensures answer { Answers result state.new (begun state.old (push_levels state.old head (trees_from tree.now i))) }
    ensures err { OnErr result (state.new ≡ state.old) }
{
    let count = push_count_at(alloc, state, tree, i, head)?;
    state.push(count)?;
    Ok(Command::Push { count })
}

/// Whether so many levels are open.
fn are_open(state: &SessionState, count: u128) -> bool
    ensures { result ≡ nat_le count (length state.now.levels) }
{
    count <= u128::from(state.levels())
}

/// As many levels as may be closed.
fn pop_count_at(
    alloc: Global,
    state: &SessionState,
    tree: &Tree,
    i: u32,
    head: Place,
) -> Result<u32, Stop>
    ensures form { Checks result (pop_form state.now head (trees_from tree.now i)) }
    ensures open { IfOk result (λ n. n ≤ length state.now.levels) }
{
    let _open = state.levels();
    let count = level_count_at(alloc, tree, i, head)?;
    if are_open(state, count) {
        Ok(count as u32)
    } else {
        let place = first_place_at(tree, i, head);
        Err(Stop::at(alloc, Refusal::PopTooFar, place))
    }
}

/// Levels are closed.
pub(crate) fn pop_levels(
    alloc: Global,
    state: &mut SessionState,
    tree: &Tree,
    i: u32,
    head: Place,
) -> Result<Command, Stop>
    ensures answer { Answers result state.new (begun state.old (pop_levels state.old head (trees_from tree.now i))) }
    ensures err { OnErr result (state.new ≡ state.old) }
{
    let count = pop_count_at(alloc, state, tree, i, head)?;
    state.pop(count);
    Ok(Command::Pop { count })
}

/// All is as at the start.
pub(crate) fn reset(
    alloc: Global,
    state: &mut SessionState,
    tree: &Tree,
    i: u32,
) -> Result<Command, Stop>
    ensures answer { Answers result state.new (begun state.old (alone Reset (at_start state.old.limits) (trees_from tree.now i))) }
    ensures err { OnErr result (state.new ≡ state.old) }
{
    check_at_most(alloc, tree, i, 0)?;
    state.reset();
    Ok(Command::Reset)
}

/// No assertions, declarations and levels stand any more.
pub(crate) fn reset_assertions(
    alloc: Global,
    state: &mut SessionState,
    tree: &Tree,
    i: u32,
) -> Result<Command, Stop>
    ensures answer { Answers result state.new (begun state.old (alone ResetAssertions (cleared state.old) (trees_from tree.now i))) }
    ensures err { OnErr result (state.new ≡ state.old) }
{
    check_at_most(alloc, tree, i, 0)?;
    state.clear();
    Ok(Command::ResetAssertions)
}
