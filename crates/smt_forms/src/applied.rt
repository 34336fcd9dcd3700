//! A name with its arguments.
ghost use Rattle.std.specs.Prelude.{◌≡◌, ◌+◌, [], length};
ghost use Rattle.smt_names.specs.Names as names;
ghost use Rattle.smt_names.specs.Names.{Core, Function, named_by, declared_as, defined_as};
ghost use Rattle.smt_names.specs.Makes.{Makes, Checks};
ghost use Rattle.smt_forms.specs.Applied.{checked, applied};

use crate::checks::{
    check_branches, check_complements, check_core_sorts, check_sorts, sort_of_arg, takes,
};
use crate::connected::put_connected;
use crate::forms::put_application;
use crate::moved::put_unfolded;
use crate::parts::values_of;
use crate::site::Site;
use formula_draft::FormulaDraft;
use smt_names::{Arg, Connective, Definition, Head, Refusal, SessionState, Signature, Stop, Value};
use smt_text::Place;
use std::alloc::Global;

/// The checks of a connective, in their order.
fn check_core(
    alloc: Global,
    connective: Connective,
    head: Place,
    called: &[u8],
    args: &[Arg],
) -> Result<(), Stop>
    ensures { Checks result (checked head called.now (Core connective) args.now) }
{
    if !takes(connective, args.len()) {
        return Err(Stop::of_name(alloc, Refusal::WrongArity, head, called));
    }
    check_core_sorts(alloc, connective, args)?;
    check_branches(alloc, connective, head, args)?;
    let sort = sort_of_arg(args, 0);
    check_complements(alloc, connective, sort, args)
}

/// The checks of a declared function, in their order.
fn check_function(
    alloc: Global,
    symbol: u32,
    signature: &Signature,
    head: Place,
    called: &[u8],
    args: &[Arg],
) -> Result<(), Stop>
    ensures { Checks result (checked head called.now (Function symbol (declared_as [] signature.now)) args.now) }
{
    let wanted = signature.arguments.as_slice();
    if args.len() != wanted.len() {
        return Err(Stop::of_name(alloc, Refusal::WrongArity, head, called));
    }
    check_sorts(alloc, wanted, args)
}

/// The checks of a definition, in their order.
fn check_definition(
    alloc: Global,
    definition: &Definition,
    head: Place,
    called: &[u8],
    args: &[Arg],
) -> Result<(), Stop>
    ensures { Checks result (checked head called.now (names.Definition (defined_as [] definition.now)) args.now) }
{
    let wanted = definition.parameters.as_slice();
    if args.len() != wanted.len() {
        return Err(Stop::of_name(alloc, Refusal::WrongArity, head, called));
    }
    check_sorts(alloc, wanted, args)
}

/// A connective with its arguments.
#[tactic(auto, unfolding(crate::specs::Applied::applied))]
fn apply_core(
    alloc: Global,
    draft: &mut FormulaDraft,
    site: Site,
    called: &[u8],
    connective: Connective,
    args: &[Arg],
) -> Result<Value, Stop>
    ensures { Makes result draft.old draft.new (applied site.at site.head called.now (Core connective) args.now) }
{
    check_core(alloc, connective, site.head, called, args)?;
    let values = values_of(alloc, args)?;
    put_connected(alloc, draft, site.at, connective, &values)
}

/// A declared function with its arguments.
#[tactic(auto, unfolding(crate::specs::Applied::applied))]
fn apply_function(
    alloc: Global,
    draft: &mut FormulaDraft,
    site: Site,
    called: &[u8],
    symbol: u32,
    signature: &Signature,
    args: &[Arg],
) -> Result<Value, Stop>
    ensures { Makes result draft.old draft.new (applied site.at site.head called.now (Function symbol (declared_as [] signature.now)) args.now) }
{
    check_function(alloc, symbol, signature, site.head, called, args)?;
    let values = values_of(alloc, args)?;
    put_application(alloc, draft, site.at, symbol, signature.sort, &values)
}

/// A name that stands for nothing takes no number of arguments.
#[tactic(auto, unfolding(crate::specs::Applied::applied))]
fn apply_unknown(
    alloc: Global,
    draft: &mut FormulaDraft,
    site: Site,
    called: &[u8],
    args: &[Arg],
) -> Result<Value, Stop>
    ensures { Makes result draft.old draft.new (applied site.at site.head called.now names.Unknown args.now) }
{
    let _rows = draft.rows();
    let _args = args.len();
    let _line = site.at.line;
    Err(Stop::of_name(alloc, Refusal::WrongArity, site.head, called))
}

/// The declared function at a place with its arguments.
fn apply_function_at(
    alloc: Global,
    draft: &mut FormulaDraft,
    state: &SessionState,
    site: Site,
    called: &[u8],
    index: u32,
    args: &[Arg],
) -> Result<Value, Stop>
    ensures { Makes result draft.old draft.new (applied site.at site.head called.now (named_by state.now (Head.Function index)) args.now) }
{
    match state.signature(index) {
        None => apply_unknown(alloc, draft, site, called, args),
        Some(signature) => {
            apply_function(alloc, draft, site, called, index + 2, signature, args)
        }
    }
}

/// A definition with its arguments.
#[tactic(auto, unfolding(crate::specs::Applied::applied))]
fn apply_definition(
    alloc: Global,
    draft: &mut FormulaDraft,
    site: Site,
    called: &[u8],
    definition: &Definition,
    args: &[Arg],
) -> Result<Value, Stop>
    ensures { Makes result draft.old draft.new (applied site.at site.head called.now (names.Definition (defined_as [] definition.now)) args.now) }
{
    check_definition(alloc, definition, site.head, called, args)?;
    let values = values_of(alloc, args)?;
    put_unfolded(alloc, draft, site.at, definition, &values)
}

/// The definition at a place with its arguments.
fn apply_definition_at(
    alloc: Global,
    draft: &mut FormulaDraft,
    state: &SessionState,
    site: Site,
    called: &[u8],
    index: u32,
    args: &[Arg],
) -> Result<Value, Stop>
    ensures { Makes result draft.old draft.new (applied site.at site.head called.now (named_by state.now (Head.Definition index)) args.now) }
{
    match state.definition(index) {
        None => apply_unknown(alloc, draft, site, called, args),
        Some(definition) => apply_definition(alloc, draft, site, called, definition, args),
    }
}

/// Puts a name with its arguments, where their number, their sorts and their complements are right.
///
/// `name` is what the head stands for, and `called` its text. What is put has the place `site.at`. A wrong number is refused at the head with its text, then the first argument of another sort at its place, then
/// branches of `ite` that are no formulas at the head, then the first argument that lacks a complement which the form needs at its
/// place, and last a row or node that there is no room for at `site.at`. After an error the formula is of no further use: some of its
/// rows and nodes may have been put.
pub fn apply(
    alloc: Global,
    draft: &mut FormulaDraft,
    state: &SessionState,
    site: Site,
    called: &[u8],
    name: Head,
    args: &[Arg],
) -> Result<Value, Stop>
    ensures { Makes result draft.old draft.new (applied site.at site.head called.now (named_by state.now name) args.now) }
{
    match name {
        Head::Core(connective) => apply_core(alloc, draft, site, called, connective, args),
        Head::Function(index) => {
            apply_function_at(alloc, draft, state, site, called, index, args)
        }
        Head::Definition(index) => {
            apply_definition_at(alloc, draft, state, site, called, index, args)
        }
        Head::Unknown => apply_unknown(alloc, draft, site, called, args),
    }
}
