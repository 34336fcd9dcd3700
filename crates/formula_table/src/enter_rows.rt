//! Enters the rows of a formula as terms.
ghost use Rattle.std.specs.Prelude.{◌≡◌, ◌<◌, ◌≤◌, ◌↔◌, ◌++◌, ◌∷◌, [], List, length, map, slice_index, All, IsTrue, IfOk, IfErr, OnOk};
ghost use Rattle.graph_terms.specs.declared.term_row.TermRow.{TermRow};
ghost use Rattle.graph_terms.specs.Terms.{most_args};
ghost use Rattle.graph_terms.specs.TermEntry.{AddGrows};
ghost use Rattle.formula_draft.specs.Reach.{ReachesRow};
ghost use Rattle.formula_table.specs.Marks.{AreMarks};
ghost use Rattle.formula_table.specs.Body.{IsFormulaOver};
ghost use Rattle.formula_table.specs.Entry.{entered_row, RowsGrow};
ghost use Rattle.formula_table.specs.EntryInside.{NumbersStand, StopsTerm, RowGrows, StopsRow, StopsRows};

use crate::enter_fault::EnterFault;
use crate::row_list::RowList;
use formula_draft::DraftRow;
use graph_terms::{Memory, TermEntry};
use std::alloc::Global;

/// Puts a number last.
pub(crate) fn push_number(numbers: &mut Vec<u32>, number: u32) -> Result<(), Memory>
    ensures { OnOk result (numbers.new.items ≡ numbers.old.items ++ number ∷ []) }
{
    numbers.push(number)?;
    Ok(())
}

/// The numbers that these places have.
pub(crate) fn renamed(alloc: Global, places: &[u32], numbers: &[u32]) -> Result<Vec<u32>, Memory>
    requires { All (λ place. place < length numbers.now) places.now }
    ensures { IfOk result (λ found. found.items ≡ map (slice_index numbers.now) places.now) }
{
    let mut found = Vec::new(alloc);
    for place in places {
        push_number(&mut found, numbers[*place as usize])?;
    }
    Ok(found)
}

/// Adds the term of a row whose arguments became these terms.
fn add_term<E: TermEntry>(
    alloc: Global,
    terms: &mut E,
    symbol: u32,
    args: &[u32],
    numbers: &[u32],
) -> Result<u32, EnterFault>
    requires named { All (λ arg. arg < length numbers.now) args.now }
    requires stand { All (λ arg. slice_index numbers.now arg < length (E.rows terms.old)) args.now }
    requires few { length args.now ≤ most_args }
    ensures ok { IfOk result (λ term. AddGrows (E.rows terms.old) (E.limit terms.old) (E.rows terms.new) (E.grown terms.old terms.new) (entered_row numbers.now symbol args.now) term) }
    ensures fault { IfErr result (StopsTerm (E.rows terms.old) (E.limit terms.old) (terms.new ≡ terms.old) (E.refused terms.old terms.new) (entered_row numbers.now symbol args.now)) }
{
    let args = renamed(alloc, args, numbers)?;
    let term = terms.add(symbol, args.as_slice())?;
    Ok(term)
}

/// Enters the next row, where it is reached. Gives its term: of a variable the one of the tuple.
fn enter_row<E: TermEntry, F: RowList>(
    alloc: Global,
    terms: &mut E,
    formula: &F,
    tuple: &[u32],
    reached: bool,
    numbers: &[u32],
) -> Result<u32, EnterFault>
    requires formula { IsFormulaOver (length tuple.now) (F.formula formula.now) }
    requires tuple { All (λ term. term < length (E.rows terms.old)) tuple.now }
    requires next { length numbers.now < length (F.formula formula.now).rows }
    requires reached { IsTrue reached ↔ ReachesRow (F.formula formula.now).rows (F.formula formula.now).nodes (F.formula formula.now).root (length numbers.now) }
    requires stand { NumbersStand (F.formula formula.now) (length (E.rows terms.old)) numbers.now }
    ensures ok { IfOk result (RowGrows (E.grown terms.old terms.new) (F.formula formula.now) tuple.now (E.rows terms.old) (E.limit terms.old) numbers.now) }
    ensures fault { IfErr result (StopsRow (terms.new ≡ terms.old) (E.refused terms.old terms.new) (F.formula formula.now) tuple.now (E.rows terms.old) (E.limit terms.old) numbers.now) }
{
    if !reached {
        return Ok(0);
    }
    match formula.row(numbers.len()) {
        DraftRow::Var { index } => return Ok(tuple[*index as usize]),
        DraftRow::App { symbol, args } => {
            return add_term(alloc, terms, *symbol, args.as_slice(), numbers);
        }
    }
}

/// Enters the reached rows over a tuple of terms, in order. Gives the term of each row, and 0 for a row that isn't reached.
pub(crate) fn enter_rows<E: TermEntry, F: RowList>(
    alloc: Global,
    terms: &mut E,
    formula: &F,
    tuple: &[u32],
    reached: &[bool],
) -> Result<Vec<u32>, EnterFault>
    requires formula { IsFormulaOver (length tuple.now) (F.formula formula.now) }
    requires tuple { All (λ term. term < length (E.rows terms.old)) tuple.now }
    requires reached { AreMarks (length (F.formula formula.now).rows) (ReachesRow (F.formula formula.now).rows (F.formula formula.now).nodes (F.formula formula.now).root) reached.now }
    ensures ok { IfOk result (λ numbers. RowsGrow (E.grown terms.old terms.new) (F.formula formula.now) tuple.now (E.rows terms.old) (E.limit terms.old) numbers.items) }
    ensures fault { IfErr result (StopsRows (E.grown terms.old terms.new) (λ added. (middle : E) × E.grown terms.old middle added × E.refused middle terms.new) (F.formula formula.now) tuple.now (E.rows terms.old) (E.limit terms.old)) }
{
    let mut numbers = Vec::new(alloc);
    for n in 0..formula.row_count() {
        let number = enter_row(alloc, terms, formula, tuple, reached[n], &numbers)?;
        push_number(&mut numbers, number)?;
    }
    Ok(numbers)
}
