//! Enters the foralls of a formula.
ghost use Rattle.std.specs.Prelude.{◌≡◌, ◌<◌, length, IfOk, OnErr};
ghost use Rattle.formula_draft.specs.Draft.{IsFormula};
ghost use Rattle.formula_table.specs.Marks.{AreMarks};
ghost use Rattle.formula_table.specs.Formulas.{GrowsTable, with_foralls};
ghost use Rattle.formula_table.specs.Entry.{numbered, BecomesForall, ReachesForall};
ghost use Rattle.formula_table.specs.EntryInside.{ForallGrows, ForallsEntered};

use crate::body::Body;
use crate::enter_rows::push_number;
use crate::formula_table::FormulaTable;
use crate::table_forall::TableForall;
use formula_draft::{DraftForall, Formula};
use graph_terms::Memory;
use graph_trigger::Triggers;
use std::alloc::Global;

/// Triggers with the number of their forall and their places.
fn numbered_triggers(alloc: Global, number: u32, triggers: &Triggers) -> Result<Triggers, Memory>
    ensures { IfOk result (λ made. made ≡ numbered number 0 triggers.now) }
{
    let mut made = Triggers::new(alloc);
    for place in 0..triggers.len() {
        let mut trigger = triggers.get(place).copy(alloc)?;
        trigger.forall = number;
        trigger.place = place;
        made.push(trigger)?;
    }
    Ok(made)
}

/// A forall of a formula under its number in the table.
fn table_forall(
    alloc: Global,
    number: u32,
    formula: &Formula,
    new: &DraftForall,
) -> Result<TableForall, Memory>
    requires formula { IsFormula formula.now }
    requires stands { new.now.body < length formula.now.nodes }
    ensures { IfOk result (BecomesForall formula.now number new.now) }
{
    let triggers = numbered_triggers(alloc, number, &new.triggers)?;
    let body = Body::of_node(alloc, formula, new.body)?;
    Ok(TableForall {
        variables: new.variables,
        triggers,
        body,
    })
}

/// Enters a forall, where it is reached. Gives its number, and 0 for one that isn't reached.
fn enter_forall(
    alloc: Global,
    table: &mut FormulaTable,
    formula: &Formula,
    index: u32,
    reached: bool,
) -> Result<u32, Memory>
    requires formula { IsFormula formula.now }
    requires stands { index < length formula.now.foralls }
    ensures ok { IfOk result (ForallGrows formula.now index reached table.old table.new) }
    ensures err { OnErr result (table.new ≡ table.old) }
{
    if !reached {
        return Ok(0);
    }
    let number = table.foralls();
    let forall = table_forall(alloc, number, formula, formula.forall_at(index))?;
    let number = table.push_forall(forall)?;
    Ok(number)
}

/// Enters the reached foralls, in order. Gives the number of each, and 0 for one that isn't reached.
pub(crate) fn enter_foralls(
    alloc: Global,
    table: &mut FormulaTable,
    formula: &Formula,
    reached: &[bool],
) -> Result<Vec<u32>, Memory>
    requires formula { IsFormula formula.now }
    requires reached { AreMarks (length formula.now.foralls) (ReachesForall formula.now) reached.now }
    ensures ok { IfOk result (λ numbers. ForallsEntered formula.now table.old table.new numbers.items) }
    ensures grows { GrowsTable table.old table.new }
{
    let mut numbers = Vec::new(alloc);
    for index in 0..formula.foralls() {
        let number = enter_forall(alloc, table, formula, index, reached[index as usize])?;
        push_number(&mut numbers, number)?;
    }
    Ok(numbers)
}
