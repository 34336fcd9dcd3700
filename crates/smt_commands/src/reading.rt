//! Commands that change nothing.
ghost use Rattle.std.specs.Prelude.{◌≡◌};
ghost use Rattle.smt_names.specs.Makes.{Checks};
ghost use Rattle.smt_terms.specs.Checks.{ChecksAs};
ghost use Rattle.smt_terms.specs.Cursor.{trees_from, word_at};
ghost use Rattle.smt_commands.specs.Answers.{Answers};
ghost use Rattle.smt_commands.specs.Commands.{alone, asked_form, begun, get_info, info_form, info_of, key_form, logic_form, one_or_two, set_info, set_logic};

use crate::command::Command;
use crate::info::Info;
use crate::parts::{check_keyword, check_plain_value, check_symbol};
use smt_names::{SessionState, Stop};
use smt_terms::{behind_one, check_at_least, check_at_most, check_exactly, text_at};
use smt_text::{Place, Tree};
use std::alloc::Global;

/// One symbol.
fn check_logic(alloc: Global, tree: &Tree, i: u32, head: Place) -> Result<(), Stop>
    ensures { ChecksAs result (word_at tree.now i) (logic_form head (trees_from tree.now i)) }
{
    check_exactly(alloc, tree, i, 1, head)?;
    check_symbol(alloc, tree, i, head)
}

/// A logic is named.
pub(crate) fn set_logic(
    alloc: Global,
    state: &SessionState,
    tree: &Tree,
    i: u32,
    head: Place,
) -> Result<Command, Stop>
    ensures { Answers result state.now (begun state.now (set_logic state.now head (trees_from tree.now i))) }
{
    check_logic(alloc, tree, i, head)?;
    Ok(Command::Silent)
}

/// One part or two.
fn check_one_or_two(alloc: Global, tree: &Tree, i: u32, head: Place) -> Result<(), Stop>
    ensures { Checks result (one_or_two head (trees_from tree.now i)) }
{
    check_at_least(alloc, tree, i, 1, head)?;
    check_at_most(alloc, tree, i, 2)
}

/// A keyword, and perhaps one part more.
pub(crate) fn check_key(alloc: Global, tree: &Tree, i: u32, head: Place) -> Result<(), Stop>
    ensures { ChecksAs result (word_at tree.now i) (key_form head (trees_from tree.now i)) }
{
    check_one_or_two(alloc, tree, i, head)?;
    check_keyword(alloc, tree, i, head)
}

/// A keyword, and perhaps its value.
fn check_info(alloc: Global, tree: &Tree, i: u32, head: Place) -> Result<(), Stop>
    ensures { Checks result (info_form head (trees_from tree.now i)) }
{
    check_key(alloc, tree, i, head)?;
    check_plain_value(alloc, tree, behind_one(tree, i))
}

/// An information is set.
pub(crate) fn set_info(
    alloc: Global,
    state: &SessionState,
    tree: &Tree,
    i: u32,
    head: Place,
) -> Result<Command, Stop>
    ensures { Answers result state.now (begun state.now (set_info state.now head (trees_from tree.now i))) }
{
    check_info(alloc, tree, i, head)?;
    Ok(Command::Silent)
}

/// A command without parts that changes nothing.
pub(crate) fn ask(
    alloc: Global,
    state: &SessionState,
    tree: &Tree,
    i: u32,
    command: Command,
) -> Result<Command, Stop>
    ensures { Answers result state.now (begun state.now (alone command state.now (trees_from tree.now i))) }
{
    check_at_most(alloc, tree, i, 0)?;
    Ok(command)
}

/// One keyword.
fn check_asked(alloc: Global, tree: &Tree, i: u32, head: Place) -> Result<(), Stop>
    ensures { ChecksAs result (word_at tree.now i) (asked_form head (trees_from tree.now i)) }
{
    check_exactly(alloc, tree, i, 1, head)?;
    check_keyword(alloc, tree, i, head)
}

/// The information that a keyword names.
#[tactic(auto, unfolding(crate::specs::Commands::info_of))]
fn info_named(key: &[u8]) -> Info
    ensures { result ≡ info_of key.now }
{
    if key == b":name".as_slice() {
        return Info::Name;
    }
    if key == b":version".as_slice() {
        return Info::Version;
    }
    if key == b":authors".as_slice() {
        return Info::Authors;
    }
    if key == b":error-behavior".as_slice() {
        return Info::ErrorBehavior;
    }
    if key == b":assertion-stack-levels".as_slice() {
        return Info::Levels;
    }
    if key == b":reason-unknown".as_slice() {
        return Info::ReasonUnknown;
    }
    Info::Other
}

/// An information is asked for.
pub(crate) fn get_info(
    alloc: Global,
    state: &SessionState,
    tree: &Tree,
    i: u32,
    head: Place,
) -> Result<Command, Stop>
    ensures { Answers result state.now (begun state.now (get_info state.now head (trees_from tree.now i))) }
{
    check_asked(alloc, tree, i, head)?;
    let info = info_named(text_at(tree, i));
    Ok(Command::GetInfo { info })
}
