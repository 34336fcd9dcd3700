//! Keeps the rows of a formula that are reached, numbered anew.
ghost use Rattle.std.specs.Prelude.{◌≡◌, ◌<◌, ◌≤◌, ℕ, Bool, List, map, length, get_or, IfOk};
ghost use Rattle.formula_draft.specs.declared.draft_row.DraftRow.TheVariants.{Var};
ghost use Rattle.smt_patterns.specs.Patterns.{numbered, renumbered};
ghost use Rattle.smt_patterns.specs.Places.{places_below, numbers_below, kept_row};

use crate::marks::count_below;
use formula_draft::{DraftRow, FormulaDraft};
use graph_terms::{Memory, Numbers};
use graph_trigger::{PatternRow, PatternRows};
use std::alloc::Global;

/// The new number of a place: its place among those that are kept, and 0 where it is none of them.
fn number_of(places: &[u32], place: u32) -> Result<u32, Memory>
    ensures { IfOk result (λ number. (marks : List Bool) (rows : ℕ) → places.now ≡ places_below rows marks → number ≡ get_or (numbers_below rows marks) place 0) }
{
    let i = count_below(places, place);
    if i >= places.len() || places[i] != place {
        return Ok(0);
    }
    if i > u32::MAX as usize {
        return Err(Memory);
    }
    Ok(i as u32)
}

/// The new numbers of some places, where these are kept.
pub(crate) fn numbers_at(alloc: Global, places: &[u32], asked: &[u32]) -> Result<Numbers, Memory>
    ensures { IfOk result (λ found. (marks : List Bool) (rows : ℕ) → places.now ≡ places_below rows marks → found ≡ numbered (numbers_below rows marks) asked.now) }
{
    let mut found = Vec::new(alloc);
    for place in asked {
        let number = number_of(places, *place)?;
        found.push(number)?;
    }
    Numbers::from_slice(alloc, found.as_slice())
}

/// A row with new numbers, where these are kept before it.
fn renumber(alloc: Global, places: &[u32], row: &DraftRow) -> Result<PatternRow, Memory>
    ensures { IfOk result (λ found. (marks : List Bool) (rows : ℕ) → places.now ≡ places_below rows marks → found ≡ renumbered (numbers_below rows marks) row.now) }
{
    match row {
        DraftRow::Var { index } => Ok(PatternRow::Var { index: *index }),
        DraftRow::App { symbol, args } => {
            let args = numbers_at(alloc, places, args.as_slice())?;
            Ok(PatternRow::App {
                symbol: *symbol,
                args,
            })
        }
    }
}

/// The row at a place with new numbers, where these are kept before it.
fn renumber_at(
    alloc: Global,
    draft: &FormulaDraft,
    places: &[u32],
    place: u32,
) -> Result<PatternRow, Memory>
    ensures { IfOk result (λ found. (marks : List Bool) → places.now ≡ places_below place marks → found ≡ kept_row draft.now.rows marks place) }
{
    if place >= draft.rows() {
        return Ok(PatternRow::Var { index: 0 });
    }
    renumber(alloc, places, draft.row_at(place))
}

/// The rows at these places, which are in order, numbered anew.
pub(crate) fn keep(
    alloc: Global,
    draft: &FormulaDraft,
    places: &[u32],
) -> Result<PatternRows, Memory>
    ensures { IfOk result (λ kept. (marks : List Bool) (rows : ℕ) → places.now ≡ places_below rows marks → kept ≡ map (kept_row draft.now.rows marks) places.now) }
{
    let mut kept = PatternRows::new(alloc);
    for i in 0..places.len() {
        let new = renumber_at(alloc, draft, &places[..i], places[i])?;
        kept.push(new)?;
    }
    Ok(kept)
}
