//! The calls of the graph with a trail by which operations are done, where what they ask for holds.
ghost use Rattle.std.specs.Prelude.{◌<◌, ◌↔◌, All, IsTrue};

use super::deed::{Deed, trigger};
use graph_congruence::{Graph, Unions};
use graph_meaning::ClassGraph;
use graph_terms::{MOST_ARGS, Memory, TableFault, are_below};
use std::alloc::Global;

/// Whether these are the unions, where it does not matter which end of one stands first.
fn are_unions(found: &Unions, wanted: &[(u32, u32)]) -> bool {
    if found.len() as usize != wanted.len() {
        return false;
    }
    for i in 0..found.len() {
        let union = found.get(i);
        let (left, right) = wanted[i as usize];
        let straight = union.left == left && union.right == right;
        let crossed = union.left == right && union.right == left;
        if !straight && !crossed {
            return false;
        }
    }
    true
}

/// Whether the row comes as the next term, with these unions.
pub fn adds(
    graph: &mut Graph,
    symbol: u32,
    args: &[u32],
    unions: &[(u32, u32)],
) -> Result<bool, TableFault> {
    let terms = graph.len();
    if args.len() > MOST_ARGS as usize || !are_below(args, terms) {
        return Ok(false);
    }
    let added = graph.add(symbol, args)?;
    Ok(added.fresh && added.term == terms && are_unions(&added.unions, unions))
}

/// Whether the row stands as this term.
pub fn finds(graph: &mut Graph, symbol: u32, args: &[u32], term: u32) -> Result<bool, TableFault> {
    if args.len() > MOST_ARGS as usize || !are_below(args, graph.len()) {
        return Ok(false);
    }
    let added = graph.add(symbol, args)?;
    Ok(!added.fresh && added.term == term && added.unions.len() == 0)
}

/// Whether the equation brings these unions.
fn merges(graph: &mut Graph, left: u32, right: u32, unions: &[(u32, u32)]) -> Result<bool, Memory> {
    if left >= graph.len() || right >= graph.len() {
        return Ok(false);
    }
    let found = graph.merge(left, right)?;
    Ok(are_unions(&found, unions))
}

/// Whether the terms stand, which are then kept apart.
fn differs(graph: &mut Graph, left: u32, right: u32) -> Result<bool, Memory> {
    if left >= graph.len() || right >= graph.len() {
        return Ok(false);
    }
    graph.differ(left, right)?;
    Ok(true)
}

/// Whether the trigger is valid, which is then live.
fn lives(graph: &mut Graph, alloc: Global, forall: u32, roots: &[u32]) -> Result<bool, Memory> {
    let trigger = trigger(alloc, forall, roots)?;
    if !trigger.valid() {
        return Ok(false);
    }
    graph.live(&trigger)?;
    Ok(true)
}

/// Whether a level was open, which is then ended.
fn pops(graph: &mut Graph) -> bool {
    if graph.depth() == 0 {
        return false;
    }
    graph.pop();
    true
}

/// Does the operation by its own call, and tells whether that was allowed and brought these unions.
pub fn call(
    graph: &mut Graph,
    alloc: Global,
    deed: Deed,
    unions: &[(u32, u32)],
) -> Result<bool, TableFault> {
    match deed {
        Deed::Add(symbol, args) => adds(graph, symbol, args, unions),
        Deed::Merge(left, right) => Ok(merges(graph, left, right, unions)?),
        Deed::Differ(left, right) => Ok(differs(graph, left, right)?),
        Deed::Live(forall, roots) => Ok(lives(graph, alloc, forall, roots)?),
        Deed::Push => {
            graph.push()?;
            Ok(true)
        }
        Deed::Pop => Ok(pops(graph)),
    }
}
