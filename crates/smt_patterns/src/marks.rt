//! Which rows of a formula are reached from some roots. The work is in proportion to the rows that are.
ghost use Rattle.std.specs.Prelude.{◌≡◌, ◌<◌, ◌≤◌, ℕ, Bool, true, false, List, length, get_or, slice_set, IfOk, OnOk};
ghost use Rattle.formula_draft.specs.declared.draft_row.DraftRow.TheVariants.{Var};
ghost use Rattle.formula_draft.specs.DraftRow.{args_of};
ghost use Rattle.smt_patterns.specs.Patterns.{marked, reached_from};
ghost use Rattle.smt_patterns.specs.Places.{places_below, Marks, IsLastBelow};

use formula_draft::{DraftRow, FormulaDraft};
use graph_terms::Memory;
use std::alloc::Global;

/// How many of these places, which are in order, are below a bound.
pub(crate) fn count_below(places: &[u32], bound: u32) -> usize
    ensures within { result ≤ length places.now }
    ensures is { (marks : List Bool) (rows : ℕ) → bound ≤ rows → places.now ≡ places_below rows marks → result ≡ length (places_below bound marks) }
{
    places.partition_point(|place| *place < bound)
}

/// Marks a place, where it is one of so many rows.
fn mark(places: &mut Vec<u32>, rows: u32, place: u32) -> Result<(), Memory>
    ensures { OnOk result (Marks rows places.old.items places.new.items (λ marks. slice_set marks place true)) }
{
    if place >= rows {
        return Ok(());
    }
    let i = count_below(places.as_slice(), place);
    if i < places.len() && places[i] == place {
        return Ok(());
    }
    places.insert(i, place)?;
    Ok(())
}

/// Marks these places, where they are of so many rows.
fn mark_all(places: &mut Vec<u32>, rows: u32, more: &[u32]) -> Result<(), Memory>
    ensures { OnOk result (Marks rows places.old.items places.new.items (λ marks. marked more.now marks)) }
{
    for place in more {
        mark(places, rows, *place)?;
    }
    Ok(())
}

/// Marks the arguments of a row, where it stands.
fn mark_args(places: &mut Vec<u32>, draft: &FormulaDraft, n: u32) -> Result<(), Memory>
    ensures { OnOk result (Marks (length draft.now.rows) places.old.items places.new.items (λ marks. marked (args_of (get_or draft.now.rows n (Var 0))) marks)) }
{
    let rows = draft.rows();
    if n >= rows {
        return Ok(());
    }
    match draft.row_at(n) {
        DraftRow::Var { .. } => Ok(()),
        DraftRow::App { args, .. } => mark_all(places, rows, args.as_slice()),
    }
}

/// The last place below a bound.
fn last_below(places: &[u32], bound: u32) -> Option<u32>
    ensures { (marks : List Bool) (rows : ℕ) → bound ≤ rows → places.now ≡ places_below rows marks → IsLastBelow marks bound result }
{
    let i = count_below(places, bound);
    if i == 0 {
        return None;
    }
    Some(places[i - 1])
}

/// The rows that are reached from these roots, in order.
pub(crate) fn reach(alloc: Global, draft: &FormulaDraft, roots: &[u32]) -> Result<Vec<u32>, Memory>
    ensures { IfOk result (λ places. places.items ≡ places_below (length draft.now.rows) (reached_from draft.now.rows roots.now)) }
{
    let rows = draft.rows();
    let mut places = Vec::new(alloc);
    mark_all(&mut places, rows, roots)?;
    let mut left = rows;
    while let Some(n) = last_below(places.as_slice(), left) {
        mark_args(&mut places, draft, n)?;
        left = n;
    }
    Ok(places)
}
