//! The parameters of a definition.
ghost use Rattle.std.specs.Prelude.{◌≡◌, IfOk};
ghost use Rattle.smt_names.specs.Makes.{Checks};
ghost use Rattle.smt_terms.specs.Terms.{variables_from};
ghost use Rattle.smt_terms.specs.Scopes.{sort_of_stands, sorts_of};
ghost use Rattle.smt_terms.specs.Cursor.{trees_from};
ghost use Rattle.smt_commands.specs.Commands.{few_bindings, parameters_first, parameters_of};
ghost use Rattle.smt_commands.specs.Parameters.{HasParameters};

use crate::parts::check_list;
use graph_terms::{MOST_ARGS, Memory, Numbers};
use smt_names::{Bound, BoundNames, Refusal, SessionState, Stands, Stop};
use smt_terms::{bind_all, check_few_bindings, check_names, variables_at};
use smt_text::{Place, Tree};
use std::alloc::Global;

/// The parameters of a definition: as bound names, and their sorts.
#[derive(Drop)]
pub(crate) struct Parameters {
    pub(crate) bound: BoundNames,
    pub(crate) sorts: Numbers,
}

/// At most `MOST_ARGS` bindings come next, to the end of the list.
fn check_parameters(alloc: Global, tree: &Tree, i: u32) -> Result<(), Stop>
    ensures { Checks result (few_bindings (trees_from tree.now i)) }
{
    check_names(alloc, tree, i)?;
    check_few_bindings(alloc, tree, i, MOST_ARGS, Refusal::TooManyArguments)
}

/// The sort of what a bound name stands for.
fn sort_of_stands(stands: Stands) -> u32
    ensures { result ≡ sort_of_stands stands }
{
    match stands {
        Stands::Given(value) => value.sort(),
        Stands::Variable { sort, .. } => sort,
    }
}

/// The sorts of bound names.
fn sorts_of(alloc: Global, bound: &[Bound]) -> Result<Numbers, Memory>
    ensures { IfOk result (λ sorts. sorts ≡ sorts_of bound.now) }
{
    let mut sorts = Vec::new(alloc);
    for name in bound {
        sorts.push(sort_of_stands(name.stands))?;
    }
    Numbers::from_slice(alloc, sorts.as_slice())
}

/// The parameters that are these variables, with their sorts.
fn with_sorts(alloc: Global, variables: &[Bound]) -> Result<Parameters, Memory>
    ensures bound { IfOk result (λ parameters. parameters.bound ≡ variables.now) }
    ensures sorts { IfOk result (λ parameters. parameters.sorts ≡ sorts_of variables.now) }
{
    let sorts = sorts_of(alloc, variables)?;
    let mut bound = BoundNames::new(alloc);
    bind_all(&mut bound, variables)?;
    Ok(Parameters { bound, sorts })
}

/// The parameters of the bindings that come next, whose form is right.
fn read_parameters(
    alloc: Global,
    state: &SessionState,
    tree: &Tree,
    i: u32,
) -> Result<Parameters, Stop>
    ensures { HasParameters result (variables_from state.now 0 (trees_from tree.now i)) }
{
    let variables = variables_at(alloc, state, tree, i)?;
    let parameters = with_sorts(alloc, variables.as_slice())?;
    Ok(parameters)
}

/// The parameters that come next, to the end of the list.
fn parameters_of(
    alloc: Global,
    state: &SessionState,
    tree: &Tree,
    i: u32,
) -> Result<Parameters, Stop>
    ensures { HasParameters result (parameters_of state.now (trees_from tree.now i)) }
{
    check_parameters(alloc, tree, i)?;
    read_parameters(alloc, state, tree, i)
}

/// A list of parameters must come next.
pub(crate) fn parameters_at(
    alloc: Global,
    state: &SessionState,
    tree: &Tree,
    i: u32,
    missing: Place,
) -> Result<Parameters, Stop>
    ensures { HasParameters result (parameters_first state.now missing (trees_from tree.now i)) }
{
    let inner = check_list(alloc, tree, i, missing)?;
    parameters_of(alloc, state, tree, inner)
}
