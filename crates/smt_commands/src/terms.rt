//! Commands with a term.
ghost use Rattle.std.specs.Prelude.{◌≡◌, ◌==◌, Ok, OnErr};
ghost use Rattle.smt_names.specs.Makes.{Makes};
ghost use Rattle.smt_names.specs.Value.{sort_of};
ghost use Rattle.smt_names.specs.Names.{head_of, with_definition};
ghost use Rattle.smt_names.specs.declared.head.Head.TheVariants.{Unknown};
ghost use Rattle.smt_commands.specs.declared.command.Command.TheVariants.{Silent};
ghost use Rattle.smt_terms.specs.Cursor.{trees_from, word_at};
ghost use Rattle.smt_terms.specs.Reading.{from};
ghost use Rattle.smt_terms.specs.Machine.{scope_of};
ghost use Rattle.smt_commands.specs.Answers.{Answers};
ghost use Rattle.smt_commands.specs.Commands.{assert_truth, asserted_term, begun, define_fun, defined_by, sorted_value};
ghost use Rattle.smt_terms.specs.Scopes.{sorts_of};
ghost use Rattle.smt_commands.specs.SessionLaws.{IsSound};

use crate::command::Command;
use crate::declaring::check_named;
use crate::parameters::{Parameters, parameters_at};
use crate::parts::{first_place_at, sort_at};
use formula_draft::FormulaDraft;
use smt_laws::laws::formula_law;
use smt_names::{BoundNames, Definition, Refusal, SessionState, Stop, Value};
use smt_terms::{Context, Inside, behind_one, behind_some, check_exactly, elaborate_term, text_at};
use smt_text::{Place, Tree};
use std::alloc::Global;

/// Whether a value has this sort.
fn has_sort(value: Value, sort: u32) -> bool
    ensures { result ≡ (sort_of value == sort) }
{
    value.sort() == sort
}

/// The value of the tree that comes next, which must have this sort.
fn sorted_value_at(
    context: &Context<'_>,
    draft: &mut FormulaDraft,
    bound: &mut BoundNames,
    i: u32,
    head: Place,
    sort: u32,
) -> Result<Value, Stop>
    ensures { Makes result draft.old draft.new (sorted_value head (scope_of context.now.state.now context.now.inside bound.old) sort (trees_from context.now.tree.now i)) }
{
    let value = elaborate_term(context, draft, bound, i, head)?;
    if has_sort(value, sort) {
        Ok(value)
    } else {
        let place = first_place_at(context.tree, i, head);
        Err(Stop::at(context.alloc, Refusal::WrongSort, place))
    }
}

/// Puts a definition down, whose name is new.
fn put_definition(
    state: &mut SessionState,
    name: &[u8],
    definition: Definition,
) -> Result<Command, Stop>
    requires { head_of state.old name.now ≡ Unknown }
    ensures answer { Answers result state.new (Ok (record { command = Silent; state = with_definition name.now definition state.old })) }
    ensures err { OnErr result (state.new ≡ state.old) }
{
    state.define(name, definition)?;
    Ok(Command::Silent)
}

/// What is defined of these parameters, which stand behind the name that a token has.
fn define_by(
    alloc: Global,
    state: &mut SessionState,
    tree: &Tree,
    name: u32,
    parameters: Parameters,
    head: Place,
) -> Result<Command, Stop>
    requires sorts { parameters.sorts ≡ sorts_of parameters.bound }
    requires new { head_of state.old (word_at tree.now name).text ≡ Unknown }
    ensures answer { Answers result state.new (begun state.old (defined_by state.old head (word_at tree.now name).text parameters.bound (from 2 (trees_from tree.now name)) (from 3 (trees_from tree.now name)))) }
    ensures err { OnErr result (state.new ≡ state.old) }
{
    let inside = Inside {
        in_forall: false,
        in_definition: true,
    };
    let Parameters { mut bound, sorts } = parameters;
    let sort = sort_at(alloc, state, tree, behind_some(tree, name, 2), head)?;
    let given = behind_some(tree, name, 3);
    let limits = state.limits();
    let mut draft = FormulaDraft::new(alloc, limits.terms, limits.nodes);
    let context = Context {
        alloc,
        state,
        tree,
        inside,
    };
    let value = sorted_value_at(&context, &mut draft, &mut bound, given, head, sort)?;
    let definition = Definition {
        parameters: sorts,
        sort,
        draft,
        value,
    };
    put_definition(state, text_at(tree, name), definition)
}

/// A name is defined.
pub(crate) fn define_fun(
    alloc: Global,
    state: &mut SessionState,
    tree: &Tree,
    i: u32,
    head: Place,
) -> Result<Command, Stop>
    ensures answer { Answers result state.new (begun state.old (define_fun state.old head (trees_from tree.now i))) }
    ensures err { OnErr result (state.new ≡ state.old) }
{
    check_named(alloc, state, tree, i, 4, head)?;
    let parameters = parameters_at(alloc, state, tree, behind_one(tree, i), head)?;
    define_by(alloc, state, tree, i, parameters, head)
}

/// The formula that comes next is asserted.
fn assert_term(
    alloc: Global,
    state: &SessionState,
    tree: &Tree,
    i: u32,
    head: Place,
) -> Result<Command, Stop>
    requires { IsSound state.now }
    ensures { Answers result state.now (begun state.now (asserted_term state.now head (trees_from tree.now i))) }
{
    formula_law();
    let limits = state.limits();
    let mut draft = FormulaDraft::new(alloc, limits.terms, limits.nodes);
    let mut bound = BoundNames::new(alloc);
    let inside = Inside {
        in_forall: false,
        in_definition: false,
    };
    let context = Context {
        alloc,
        state,
        tree,
        inside,
    };
    let value = sorted_value_at(&context, &mut draft, &mut bound, i, head, 0)?;
    let formula = draft.finish(value.node());
    Ok(Command::Assert { formula })
}

/// A formula is asserted.
pub(crate) fn assert_truth(
    alloc: Global,
    state: &SessionState,
    tree: &Tree,
    i: u32,
    head: Place,
) -> Result<Command, Stop>
    requires { IsSound state.now }
    ensures { Answers result state.now (begun state.now (assert_truth state.now head (trees_from tree.now i))) }
{
    check_exactly(alloc, tree, i, 1, head)?;
    assert_term(alloc, state, tree, i, head)
}
