//! Ways of the inverted paths of a trigger.
ghost use Rattle.std.specs.Prelude.{◌≡◌, ◌<◌, ◌↔◌, ◌∷◌, List, length, slice_get, Some, Contains, OnOk, IfSome, IfNone, IsTrue};
ghost use Rattle.match_paths.specs.declared.link.Link.{Link as SpecLink};
ghost use Rattle.match_trees.specs.Growth.{Extends};
ghost use Rattle.match_trees.specs.EntryList.{ExtendsList};
ghost use Rattle.match_paths.specs.Wants.{AddsWays, BeginsForPair, IsThisWay, IsWanted, IsWayOf, IsWayOfPair, IsWayOfVariable};

use crate::link::Link;
use crate::link_list::LinkList;
use crate::occurrence::Occurrence;
use crate::occurrences::occurrence_at;
use graph_terms::Memory;
use graph_trigger::{PatternRow, Trigger};
use match_trees::laws::{entry_law, growth_law};
use match_trees::{Entry, EntryTable, NodeTable};
use std::alloc::Global;

/// Puts an entry last, and its way into the trees.
fn add_way(
    alloc: Global,
    nodes: &mut NodeTable<Link>,
    entries: &mut EntryTable,
    number: u32,
    start: u32,
    begin: Link,
    links: &LinkList,
) -> Result<(), Memory>
    ensures ok { OnOk result (AddsWays number (IsThisWay start begin links.now) nodes.old nodes.new entries.old entries.new) }
    ensures nodes { Extends nodes.old nodes.new }
    ensures entries { ExtendsList entries.old entries.new }
{
    entry_law();
    let _nodes = nodes.len();
    let _entries = entries.len();
    let way = LinkList::with_front(alloc, begin, links)?;
    let end = nodes.put_way(alloc, way.as_slice())?;
    let entry = Entry {
        trigger: number,
        start,
    };
    entries.push(entry, end)?;
    Ok(())
}

/// Whether two lists of links are one.
fn same_links(one: &[Link], other: &[Link]) -> bool
    ensures { IsTrue result ↔ (one.now ≡ other.now) }
{
    one == other
}

/// Whether two places have one pattern and one path.
fn is_same_place(one: &Occurrence, other: &Occurrence) -> bool
    ensures { IsTrue result ↔ ((one.now.start ≡ other.now.start) × (one.now.links ≡ other.now.links)) }
{
    if one.start != other.start {
        return false;
    }
    same_links(one.links.as_slice(), other.links.as_slice())
}

/// What a path from one place of a variable begins with for another place.
fn begin_for(occurrence: &Occurrence, other: &Occurrence) -> Option<Link>
    ensures some { IfSome result (BeginsForPair occurrence.now other.now) }
    ensures none { IfNone result ((begin : SpecLink) → BeginsForPair occurrence.now other.now begin → ⊥) }
{
    if other.row != occurrence.row {
        return None;
    }
    if is_same_place(other, occurrence) {
        return None;
    }
    match other.links.first() {
        Some(Link::Above { symbol, place }) => Some(Link::Argument { symbol, place }),
        Some(Link::Member { .. }) => None,
        Some(Link::Argument { .. }) => None,
        None => None,
    }
}

/// Puts the way from one place of a variable for another place, if there is one.
fn add_pair(
    alloc: Global,
    nodes: &mut NodeTable<Link>,
    entries: &mut EntryTable,
    number: u32,
    occurrence: &Occurrence,
    other: &Occurrence,
) -> Result<(), Memory>
    ensures ok { OnOk result (AddsWays number (IsWayOfPair occurrence.now other.now) nodes.old nodes.new entries.old entries.new) }
    ensures nodes { Extends nodes.old nodes.new }
    ensures entries { ExtendsList entries.old entries.new }
{
    growth_law::<Link>();
    entry_law();
    let _nodes = nodes.len();
    let _entries = entries.len();
    match begin_for(occurrence, other) {
        Some(begin) => {
            add_way(
                alloc,
                nodes,
                entries,
                number,
                occurrence.start,
                begin,
                &occurrence.links,
            )?;
            Ok(())
        }
        None => Ok(()),
    }
}

/// Puts the ways from one place of a variable for all other places.
fn add_pairs(
    alloc: Global,
    nodes: &mut NodeTable<Link>,
    entries: &mut EntryTable,
    number: u32,
    occurrence: &Occurrence,
    all: &[Occurrence],
) -> Result<(), Memory>
    ensures ok { OnOk result (AddsWays number (IsWayOfVariable all.now occurrence.now) nodes.old nodes.new entries.old entries.new) }
    ensures nodes { Extends nodes.old nodes.new }
    ensures entries { ExtendsList entries.old entries.new }
{
    growth_law::<Link>();
    entry_law();
    let _nodes = nodes.len();
    let _entries = entries.len();
    for j in 0..all.len() {
        let _same = entries.len();
        add_pair(
            alloc,
            nodes,
            entries,
            number,
            occurrence,
            occurrence_at(all, j),
        )?;
    }
    Ok(())
}

/// Puts the ways from one place.
fn add_place(
    alloc: Global,
    nodes: &mut NodeTable<Link>,
    entries: &mut EntryTable,
    number: u32,
    trigger: &Trigger,
    occurrence: &Occurrence,
    all: &[Occurrence],
) -> Result<(), Memory>
    ensures ok { OnOk result (AddsWays number (IsWayOf trigger.now all.now occurrence.now) nodes.old nodes.new entries.old entries.new) }
    ensures nodes { Extends nodes.old nodes.new }
    ensures entries { ExtendsList entries.old entries.new }
{
    growth_law::<Link>();
    entry_law();
    let _nodes = nodes.len();
    let _entries = entries.len();
    if occurrence.row >= trigger.rows.len() {
        return Ok(());
    }
    match occurrence.links.first() {
        Some(_) => match trigger.rows.get(occurrence.row) {
            PatternRow::App { symbol, .. } => {
                let begin = Link::Member { symbol: *symbol };
                add_way(
                    alloc,
                    nodes,
                    entries,
                    number,
                    occurrence.start,
                    begin,
                    &occurrence.links,
                )?;
                Ok(())
            }
            PatternRow::Var { .. } => {
                add_pairs(alloc, nodes, entries, number, occurrence, all)?;
                Ok(())
            }
        },
        None => Ok(()),
    }
}

/// Puts the ways from all places.
pub fn add_places(
    alloc: Global,
    nodes: &mut NodeTable<Link>,
    entries: &mut EntryTable,
    number: u32,
    trigger: &Trigger,
    all: &[Occurrence],
) -> Result<(), Memory>
    ensures ok { OnOk result (AddsWays number (IsWanted trigger.now all.now) nodes.old nodes.new entries.old entries.new) }
    ensures nodes { Extends nodes.old nodes.new }
    ensures entries { ExtendsList entries.old entries.new }
{
    growth_law::<Link>();
    entry_law();
    let _nodes = nodes.len();
    let _entries = entries.len();
    for i in 0..all.len() {
        let _same = entries.len();
        add_place(
            alloc,
            nodes,
            entries,
            number,
            trigger,
            occurrence_at(all, i),
            all,
        )?;
    }
    Ok(())
}
