//! Triggers of the rows of a formula.
ghost use Rattle.std.specs.Prelude.{◌≡◌, ◌<◌, ◌≤◌, ◌+◌, length, IfOk};
ghost use Rattle.smt_names.specs.Makes.{Makes, Checks};
ghost use Rattle.smt_patterns.specs.Patterns.{trigger_of, is_variable, occurs};
ghost use Rattle.smt_patterns.specs.Triggers.{each_occurs, rooted_trigger};

use crate::keeping::{keep, numbers_at};
use crate::marks::reach;
use formula_draft::FormulaDraft;
use graph_terms::Memory;
use graph_trigger::{PatternRow, Trigger};
use smt_names::{Bound, Refusal, Stop};
use smt_text::Place;
use std::alloc::Global;

/// The trigger of these roots, with so many variables.
fn make_trigger(
    alloc: Global,
    draft: &FormulaDraft,
    variables: u32,
    roots: &[u32],
) -> Result<Trigger, Memory>
    ensures { IfOk result (λ trigger. trigger ≡ trigger_of variables draft.now.rows roots.now) }
{
    let places = reach(alloc, draft, roots)?;
    let rows = keep(alloc, draft, places.as_slice())?;
    let roots = numbers_at(alloc, places.as_slice(), roots)?;
    Ok(Trigger {
        forall: 0,
        place: 0,
        variables,
        rows,
        roots,
    })
}

fn is_variable_row(index: usize, row: &PatternRow) -> bool
    ensures { result ≡ is_variable index row.now }
{
    match row {
        PatternRow::Var { index: i } => *i as usize == index,
        PatternRow::App { .. } => false,
    }
}

/// Whether a variable occurs in a trigger.
fn has_variable(trigger: &Trigger, index: usize) -> bool
    ensures { result ≡ occurs trigger.now index }
{
    let mut i = 0;
    while i < trigger.rows.len() {
        if is_variable_row(index, trigger.rows.get(i)) {
            return true;
        }
        i += 1;
    }
    false
}

/// Each of these variables occurs in the trigger.
fn check_occurs(
    alloc: Global,
    trigger: &Trigger,
    variables: &[Bound],
    at: Place,
) -> Result<(), Stop>
    ensures { Checks result (each_occurs at trigger.now 0 variables.now) }
{
    let mut i = 0;
    while i < variables.len() {
        if !has_variable(trigger, i) {
            let name = variables[i].name.as_slice();
            return Err(Stop::of_name(alloc, Refusal::PatternWithoutVariable, at, name));
        }
        i += 1;
    }
    Ok(())
}

/// How many variables these are.
///
/// # Errors
///
/// `Memory` where they are more than a `u32` can count.
pub fn count_of(variables: &[Bound]) -> Result<u32, Memory>
    ensures { IfOk result (λ count. count ≡ length variables.now) }
{
    let count = variables.len();
    if count > u32::MAX as usize {
        return Err(Memory);
    }
    Ok(count as u32)
}

/// The trigger of these roots, rows of a formula, for a forall of these variables.
///
/// # Errors
///
/// The first variable that does not occur in it is refused by its name, at the place of the trigger's list.
pub fn trigger_of_roots(
    alloc: Global,
    draft: &FormulaDraft,
    variables: &[Bound],
    paren: Place,
    roots: &[u32],
) -> Result<Trigger, Stop>
    ensures { Makes result draft.now draft.now (rooted_trigger variables.now paren roots.now) }
{
    let count = count_of(variables)?;
    let trigger = make_trigger(alloc, draft, count, roots)?;
    check_occurs(alloc, &trigger, variables, paren)?;
    Ok(trigger)
}
