//! The places of a trigger's patterns, one after another.
ghost use Rattle.std.specs.Prelude.{◌≡◌, ◌<◌, ◌++◌, length, get_or, slice_get, Some, IfOk, OnOk};
ghost use Rattle.match_paths.specs.Occurrences.{part_at, AreOccurrences, AreParts, ArePartsIn, AreRoots};

use crate::link::Link;
use crate::link_list::LinkList;
use crate::occurrence::Occurrence;
use graph_terms::{Memory, Numbers};
use graph_trigger::{PatternRow, Trigger};
use std::alloc::Global;

/// The place with the number.
pub fn occurrence_at(all: &[Occurrence], i: usize) -> &Occurrence
    requires { i < length all.now }
    ensures { slice_get all.now i ≡ Some result.now }
{
    &all[i]
}

/// The places of the roots.
fn roots_of(alloc: Global, trigger: &Trigger) -> Result<Vec<Occurrence>, Memory>
    ensures { IfOk result (λ all. AreRoots trigger.now all.items) }
{
    let mut all = Vec::new(alloc);
    for start in 0..trigger.roots.len() {
        all.push(Occurrence {
            start,
            row: trigger.roots.get(start),
            links: LinkList::new(alloc),
        })?;
    }
    Ok(all)
}

/// The place of a part.
fn part_of(
    alloc: Global,
    above: &Occurrence,
    symbol: u32,
    place: u32,
    part: u32,
) -> Result<Occurrence, Memory>
    ensures { IfOk result (λ occurrence. occurrence ≡ part_at above.now symbol place part) }
{
    let links = LinkList::with_front(alloc, Link::Above { symbol, place }, &above.links)?;
    Ok(Occurrence {
        start: above.start,
        row: part,
        links,
    })
}

/// The places of these parts.
fn parts_in(
    alloc: Global,
    above: &Occurrence,
    symbol: u32,
    args: &Numbers,
) -> Result<Vec<Occurrence>, Memory>
    ensures { IfOk result (λ parts. ArePartsIn above.now symbol args.now parts.items) }
{
    let mut parts = Vec::new(alloc);
    for place in 0..args.len() {
        let part = part_of(alloc, above, symbol, place, args.get(place))?;
        parts.push(part)?;
    }
    Ok(parts)
}

/// The places of the parts at a place.
fn parts_of(alloc: Global, trigger: &Trigger, above: &Occurrence) -> Result<Vec<Occurrence>, Memory>
    ensures { IfOk result (λ parts. AreParts trigger.now above.now parts.items) }
{
    if above.row >= trigger.rows.len() {
        return Ok(Vec::new(alloc));
    }
    match trigger.rows.get(above.row) {
        PatternRow::App { symbol, args } => {
            let parts = parts_in(alloc, above, *symbol, args)?;
            Ok(parts)
        }
        PatternRow::Var { .. } => Ok(Vec::new(alloc)),
    }
}

/// Puts places last.
fn push_all(all: &mut Vec<Occurrence>, mut parts: Vec<Occurrence>) -> Result<(), Memory>
    ensures { OnOk result (all.new.items ≡ all.old.items ++ parts.items) }
{
    all.append(&mut parts)?;
    Ok(())
}

/// The places of a trigger's patterns.
pub fn occurrences(alloc: Global, trigger: &Trigger) -> Result<Vec<Occurrence>, Memory>
    ensures { IfOk result (λ all. AreOccurrences trigger.now all.items) }
{
    let mut all = roots_of(alloc, trigger)?;
    for turn in 0..u64::MAX {
        if turn as usize >= all.len() {
            return Ok(all);
        }
        let parts = parts_of(alloc, trigger, occurrence_at(&all, turn as usize))?;
        push_all(&mut all, parts)?;
    }
    Err(Memory)
}
