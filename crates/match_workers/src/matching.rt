//! Matching by matchers in threads of their own.
ghost use Rattle.std.specs.Prelude.{◌≤◌, IfOk};
ghost use Rattle.graph_meaning.specs.Standing.{triggers_of};
ghost use Rattle.match_forest.specs.Forest.{Serves};
ghost use Rattle.match_graph.specs.AllMatches.{AreAllMatches};

use crate::lists::arrange_each;
use crate::telling::told_lists;
use graph_meaning::ClassGraph;
use graph_terms::Memory;
use match_forest::CodeForest;
use match_graph::{MatchingGraph, whole_batch};
use match_machine::TupleList;
use match_pool::NoGate;
use match_pool::pool::match_all;
use std::alloc::Global;
use std::thread::Threads;

/// The matches of each trigger, in order, each once, found by so many matchers in threads of their own.
fn matched_by<R: Threads + Sync, G: ClassGraph + Sync>(
    rt: &R,
    alloc: Global,
    workers: u32,
    forest: &CodeForest,
    graph: &G,
) -> Result<Vec<TupleList>, Memory>
    requires workers { workers ≤ 64 }
    requires serves { Serves forest.now (triggers_of (G.standing graph.now)) }
    ensures { IfOk result (λ lists. AreAllMatches (G.standing graph.now) lists.items) }
{
    let batch = whole_batch(alloc, forest, graph)?;
    let pieces = match_all(rt, alloc, workers, &batch, forest, graph, &NoGate)?;
    let mut lists = told_lists(alloc, forest, graph, &batch, &pieces)?;
    arrange_each(&mut lists)?;
    Ok(lists)
}

/// For each live trigger all its matches, as tuples of leaders in lexicographic order, each once, found by so many
/// matchers in threads of their own, or by the caller where that is 0. An item for which a matcher found no memory is run
/// by the caller. `Memory` comes where memory is refused.
pub fn all_matches_by<R: Threads + Sync>(
    rt: &R,
    alloc: Global,
    workers: u32,
    graph: &MatchingGraph,
) -> Result<Vec<TupleList>, Memory>
    requires { workers ≤ 64 }
    ensures { IfOk result (λ lists. AreAllMatches graph.now.standing lists.items) }
{
    if workers == 0 {
        return graph.all_matches(alloc);
    }
    matched_by(rt, alloc, workers, graph.forest(), graph)
}
