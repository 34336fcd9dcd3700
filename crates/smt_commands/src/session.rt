//! A session of a script.
ghost use Rattle.std.specs.Prelude.{◌≡◌, length, option_copied, OnErr};
ghost use Rattle.smt_names.specs.Names.{at_start};
ghost use Rattle.smt_terms.specs.Cursor.{trees_from};
ghost use Rattle.smt_commands.specs.Answers.{Answers};
ghost use Rattle.smt_commands.specs.Commands.{begun, command_of, elaborate, headed, symbol_name};
ghost use Rattle.smt_commands.specs.SessionLaws.{IsSound};

use crate::command::Command;
use crate::declaring::{declare_const, declare_fun, declare_sort, set_option};
use crate::levels::{pop_levels, push_levels, reset, reset_assertions};
use crate::named::{Named, command_named};
use crate::reading::{ask, get_info, set_info, set_logic};
use crate::terms::{assert_truth, define_fun};
use em_outside::Limits;
use smt_laws::laws::{definition_law, formula_law};
use smt_names::{Refusal, SessionState, Stop, is_symbol};
use smt_terms::{Seen, kind_at, look, place_at, text_at};
use smt_text::{Place, Tree};
use std::alloc::Global;
use std::marker::Model;

/// Reads the command with this name, of which the parts come next.
fn read_named(
    alloc: Global,
    state: &mut SessionState,
    tree: &Tree,
    i: u32,
    head: Place,
    name: Named,
) -> Result<Command, Stop>
    requires { IsSound state.old }
    ensures answer { Answers result state.new (begun state.old (headed state.old head (trees_from tree.now i) name)) }
    ensures err { OnErr result (state.new ≡ state.old) }
{
    match name {
        Named::SetLogic => set_logic(alloc, state, tree, i, head),
        Named::SetOption => set_option(alloc, state, tree, i, head),
        Named::SetInfo => set_info(alloc, state, tree, i, head),
        Named::DeclareSort => declare_sort(alloc, state, tree, i, head),
        Named::DeclareFun => declare_fun(alloc, state, tree, i, head),
        Named::DeclareConst => declare_const(alloc, state, tree, i, head),
        Named::DefineFun => define_fun(alloc, state, tree, i, head),
        Named::Assert => assert_truth(alloc, state, tree, i, head),
        Named::Push => push_levels(alloc, state, tree, i, head),
        Named::Pop => pop_levels(alloc, state, tree, i, head),
        Named::CheckSat => ask(alloc, state, tree, i, Command::CheckSat),
        Named::GetInfo => get_info(alloc, state, tree, i, head),
        Named::Reset => reset(alloc, state, tree, i),
        Named::ResetAssertions => reset_assertions(alloc, state, tree, i),
        Named::Exit => ask(alloc, state, tree, i, Command::Exit),
        Named::Unsupported => Ok(Command::Unsupported),
        Named::Foreign => Err(Stop::at(alloc, Refusal::NotInProfile, head)),
        Named::Unknown => Err(Stop::at(alloc, Refusal::BadForm, head)),
    }
}

/// Reads the command in a list, whose trees come next.
fn read_list(
    alloc: Global,
    state: &mut SessionState,
    tree: &Tree,
    i: u32,
    paren: Place,
) -> Result<Command, Stop>
    requires { IsSound state.old }
    ensures answer { Answers result state.new (begun state.old (command_of state.old paren (trees_from tree.now i))) }
    ensures err { OnErr result (state.new ≡ state.old) }
{
    let _len = tree.len();
    let head = place_at(tree, i);
    match look(tree, i) {
        Seen::End => Err(Stop::at(alloc, Refusal::BadForm, paren)),
        Seen::List { .. } => Err(Stop::at(alloc, Refusal::BadForm, head)),
        Seen::Token => {
            if is_symbol(kind_at(tree, i)) {
                let name = command_named(text_at(tree, i));
                read_named(alloc, state, tree, i + 1, head, name)
            } else {
                Err(Stop::at(alloc, Refusal::BadForm, head))
            }
        }
    }
}

/// Reads the commands of a script, one after another. A clause sees it as the state between two commands.
#[derive(Drop)]
pub struct Session {
    alloc: Global,
    state: SessionState,
}

impl Model for Session {
    ghost use Rattle.smt_names.specs.Names.{State};

    ghost Value = { State };

    ghost view = { λ session. session.state };

    ghost use Rattle.smt_commands.specs.SessionLaws.{IsSound};

    ghost invariant = { λ session. IsSound session.state };
}

impl Session {
    /// The session of a script that begins: nothing is declared, and success is not printed.
    pub fn new(alloc: Global, limits: &Limits) -> Session
        ensures { result ≡ at_start limits.now }
    {
        Session {
            alloc,
            state: SessionState::new(alloc, limits),
        }
    }

    /// Reads one command. Its answer, the state after it, and each refusal with its place and its name are those that are
    /// defined. Memory can lack at any command. After an `Err` the session is as before.
    pub fn command(&mut self, tree: &Tree) -> Result<Command, Stop>
        ensures answer { Answers result self.new (elaborate self.old tree.now) }
        ensures err { OnErr result (self.new ≡ self.old) }
    {
        formula_law();
        definition_law();
        let alloc = self.alloc;
        match look(tree, 0) {
            Seen::End => Err(Stop::at(alloc, Refusal::BadForm, Place { line: 1, column: 1 })),
            Seen::Token => Err(Stop::at(alloc, Refusal::BadForm, place_at(tree, 0))),
            Seen::List { .. } => read_list(alloc, &mut self.state, tree, 1, place_at(tree, 0)),
        }
    }

    /// How many levels are open. What is declared and defined is right, as a caller learns here.
    pub fn levels(&self) -> u32
        ensures count { result ≡ length self.now.levels }
        ensures sound { IsSound self.now }
    {
        self.state.levels()
    }

    /// The name of a symbol that is declared, and of no other.
    pub fn name(&self, symbol: u32) -> Option<&[u8]>
        ensures { option_copied result ≡ symbol_name self.now symbol }
    {
        if symbol < 2 {
            return None;
        }
        self.state.function_name(symbol - 2)
    }

    /// Whether success is printed.
    pub fn prints_success(&self) -> bool
        ensures { result ≡ self.now.prints_success }
    {
        self.state.prints_success()
    }
}
