//! What answers a command.
ghost use Rattle.std.specs.Prelude.{◌≡◌, ◌≤◌, ◌↔◌, IsTrue, IfOk, IfErr, OnOk};
ghost use Rattle.em_outside.specs.Limits.{AreLawful};
ghost use Rattle.formula_assert.specs.Assertions.{held_of, no_assertions, pushed, popped};
ghost use Rattle.formula_assert.specs.AssertFormula.{AssertsFormula};
ghost use Rattle.formula_assert.specs.Exactly.{AreExact, HoldsExactly};
ghost use Rattle.formula_assert.specs.Tables.{AreTables};
ghost use Rattle.smt_commands.specs.declared.command.Command.TheVariants.{Exit};
ghost use Rattle.ematch_cli.specs.Run.{repeated, Does};
ghost use Rattle.ematch_cli.specs.Response.{IsCheckResponse, IsSearched};
ghost use Rattle.ematch_cli.specs.RunState.{run_state};
ghost use Rattle.ematch_cli.specs.Reply.{IsReply, IsUnanswered, FindsNoRoomFor, IsUndone, IsUnsearched, IsUnchecked, IsUntold, Tells, IsUnread};

use crate::error_line::{refusal_line, room_line};
use crate::laws::run_law;
use crate::listing::listing;
use crate::response::{info_text, success, unsupported};
use crate::situation::Situation;
use crate::unanswered::Unanswered;
use crate::verdict::{Checked, verdict};
use em_outside::Limits;
use em_words::Task;
use formula_assert::AssertionStack;
use formula_draft::Formula;
use formula_table::EnterFault;
use graph_terms::Memory;
use match_graph::Matchers;
use smt_commands::{Command, Session};
use smt_names::Stop;
use smt_text::Tree;
use std::alloc::{AllocError, Global};

/// What answers a command.
#[derive(Debug, Drop)]
pub(crate) struct Reply {
    pub(crate) text: Vec<u8>,
    /// Nothing after the command is read.
    pub(crate) exits: bool,
}

/// Opens levels.
fn push_levels(stack: &mut AssertionStack, count: u32) -> Result<(), Memory>
    ensures { OnOk result (stack.new ≡ repeated count pushed stack.old) }
{
    for _i in 0..count {
        stack.push()?;
    }
    Ok(())
}

/// Closes the innermost level, if one is open.
fn pop_level(stack: &mut AssertionStack)
    ensures { stack.new ≡ popped stack.old }
{
    if stack.depth() > 0 {
        stack.pop();
    }
}

/// Closes levels.
fn pop_levels(stack: &mut AssertionStack, count: u32)
    ensures { stack.new ≡ repeated count popped stack.old }
{
    for _i in 0..count {
        pop_level(stack);
    }
}

/// Forgets all assertions.
fn forget(alloc: Global, limits: &Limits, stack: &mut AssertionStack) -> Result<(), Memory>
    requires { AreLawful limits.now }
    ensures { OnOk result (stack.new ≡ no_assertions limits.now.terms limits.now.nodes) }
{
    *stack = AssertionStack::new(alloc, limits.terms, limits.nodes)?;
    Ok(())
}

/// Asserts a formula, or gives the line that says that there is no room for it.
fn assert_formula(
    alloc: Global,
    stack: &mut AssertionStack,
    tree: &Tree,
    formula: &Formula,
) -> Result<(), Unanswered>
    ensures ok { OnOk result (AssertsFormula formula.now stack.old stack.new) }
    ensures refused { IfErr result (FindsNoRoomFor formula.now stack.old tree.now) }
{
    match stack.assert(formula) {
        Ok(()) => Ok(()),
        Err(EnterFault::Memory) => Err(Unanswered::Memory),
        Err(fault) => {
            let line = room_line(alloc, tree, fault)?;
            Err(Unanswered::Refused { line })
        }
    }
}

/// Does what a command says to the standing assertions.
pub(crate) fn perform(
    alloc: Global,
    limits: &Limits,
    stack: &mut AssertionStack,
    tree: &Tree,
    command: &Command,
) -> Result<(), Unanswered>
    requires { AreLawful limits.now }
    ensures ok { OnOk result (Does limits.now command.now stack.old stack.new) }
    ensures refused { IfErr result (IsUndone command.now stack.old tree.now) }
{
    match command {
        Command::Assert { formula } => assert_formula(alloc, stack, tree, formula),
        Command::Push { count } => {
            push_levels(stack, *count)?;
            Ok(())
        }
        Command::Pop { count } => {
            pop_levels(stack, *count);
            Ok(())
        }
        Command::Reset | Command::ResetAssertions => {
            forget(alloc, limits, stack)?;
            Ok(())
        }
        Command::Silent
        | Command::Unsupported
        | Command::CheckSat
        | Command::GetInfo { .. }
        | Command::Exit => Ok(()),
    }
}

/// Searches what is asserted, with so many rounds at most, or gives the line that says that there is no room for an instance.
fn search<M: Matchers>(
    alloc: Global,
    matchers: &M,
    rounds: u32,
    stack: &mut AssertionStack,
    tree: &Tree,
) -> Result<Checked, Unanswered>
    requires { HoldsExactly stack.old.formulas (held_of stack.old) }
    ensures value { IfOk result (λ checked. IsSearched rounds stack.old checked.text.items checked.why) }
    ensures refused { IfErr result (IsUnsearched rounds stack.old tree.now) }
    ensures same { stack.new ≡ stack.old }
{
    match verdict(alloc, matchers, stack, rounds) {
        Ok(checked) => Ok(checked),
        Err(EnterFault::Memory) => Err(Unanswered::Memory),
        Err(fault) => {
            let line = room_line(alloc, tree, fault)?;
            Err(Unanswered::Refused { line })
        }
    }
}

/// What answers a `check-sat`.
fn check_response<M: Matchers>(
    alloc: Global,
    matchers: &M,
    task: Task,
    session: &Session,
    stack: &mut AssertionStack,
    tree: &Tree,
) -> Result<Checked, Unanswered>
    requires { HoldsExactly stack.old.formulas (held_of stack.old) }
    ensures value { IfOk result (λ checked. IsCheckResponse task (run_state session.now stack.old checked.why) checked.text.items) }
    ensures refused { IfErr result (IsUnchecked task stack.old tree.now) }
    ensures same { stack.new ≡ stack.old }
{
    match task {
        Task::Matches => {
            let text = listing(alloc, matchers, session, stack.graph())?;
            Ok(Checked { text, why: None })
        }
        Task::Solve { rounds } => search(alloc, matchers, rounds, stack, tree),
    }
}

/// The text that answers a command that was done, where `prints` says whether success was printed before it.
fn respond<M: Matchers>(
    alloc: Global,
    matchers: &M,
    task: Task,
    situation: &mut Situation,
    tree: &Tree,
    command: &Command,
    prints: bool,
) -> Result<Vec<u8>, Unanswered>
    requires { HoldsExactly situation.old.assertions.formulas (held_of situation.old.assertions) }
    ensures value { IfOk result (λ text. Tells task command.now prints situation.old situation.new text.items) }
    ensures refused { IfErr result (IsUntold task command.now situation.old.assertions tree.now) }
{
    match command {
        Command::Unsupported => Ok(Vec::from_slice(alloc, unsupported())?),
        Command::CheckSat => {
            let checked = check_response(
                alloc,
                matchers,
                task,
                &situation.session,
                &mut situation.stack,
                tree,
            )?;
            situation.why = checked.why;
            Ok(checked.text)
        }
        Command::GetInfo { info } => {
            let levels = situation.session.levels();
            Ok(info_text(alloc, *info, levels, situation.why)?)
        }
        Command::Reset => {
            situation.why = None;
            Ok(Vec::from_slice(alloc, success(prints))?)
        }
        Command::Silent
        | Command::Assert { .. }
        | Command::Push { .. }
        | Command::Pop { .. }
        | Command::ResetAssertions
        | Command::Exit => {
            let prints = situation.session.prints_success();
            Ok(Vec::from_slice(alloc, success(prints))?)
        }
    }
}

/// Whether nothing after the command is read.
fn is_exit(command: &Command) -> bool
    ensures { IsTrue result ↔ (command.now ≡ Exit) }
{
    match command {
        Command::Exit => true,
        _ => false,
    }
}

/// Why a command is not done that is refused where it is read.
pub(crate) fn unread(alloc: Global, stop: &Stop) -> Unanswered
    ensures { IsUnread stop.now result }
{
    match stop {
        Stop::Memory => Unanswered::Memory,
        Stop::Refused(fault) => match refusal_line(alloc, fault) {
            Ok(line) => Unanswered::Refused { line },
            Err(AllocError) => Unanswered::Memory,
        },
    }
}

/// Reads a command, does what it says, and gives what answers it.
pub(crate) fn answer_command<M: Matchers>(
    alloc: Global,
    matchers: &M,
    task: Task,
    limits: &Limits,
    situation: &mut Situation,
    tree: &Tree,
) -> Result<Reply, Unanswered>
    requires limits { AreLawful limits.now }
    requires tables { AreTables situation.old.assertions }
    requires exact { AreExact situation.old.assertions }
    ensures ok { IfOk result (λ reply. IsReply task limits.now situation.old tree.now situation.new reply) }
    ensures refused { IfErr result (IsUnanswered task situation.old tree.now) }
{
    run_law();
    let prints = situation.session.prints_success();
    match situation.session.command(tree) {
        Err(stop) => Err(unread(alloc, &stop)),
        Ok(command) => match perform(alloc, limits, &mut situation.stack, tree, &command) {
            Err(unanswered) => Err(unanswered),
            Ok(()) => {
                let text = respond(alloc, matchers, task, situation, tree, &command, prints)?;
                Ok(Reply {
                    text,
                    exits: is_exit(&command),
                })
            }
        },
    }
}
