//! Handles with which matchers are started.
ghost use Rattle.std.specs.Prelude.{◌≤◌, IfOk};
ghost use Rattle.match_graph.specs.AllMatches.{AreAllMatches};
ghost use Rattle.match_workers.specs.Shared.{IsShared};

use crate::matching::all_matches_by;
use graph_terms::Memory;
use match_graph::MatchingGraph;
use match_machine::TupleList;
use std::alloc::Global;
use std::thread::Threads;

/// A handle that starts threads, in which matchers run that share it. Every handle of threads that is `Sync` is one.
pub trait StartsMatchers: Threads {
    // Holds where threads may share the handle.
    ghost shared: { Type 0 };

    /// For each live trigger all its matches, as tuples of leaders in lexicographic order, each once, found by so many
    /// matchers in threads of their own, or by the caller where that is 0. `Memory` comes where memory is refused.
    fn all_matches_by(
        &self,
        alloc: Global,
        workers: u32,
        graph: &MatchingGraph,
    ) -> Result<Vec<TupleList>, Memory>
        requires shared { shared }
        requires workers { workers ≤ 64 }
        ensures { IfOk result (λ lists. AreAllMatches graph.now.standing lists.items) };
}

impl<R: Threads + Sync> StartsMatchers for R {
    ghost shared = { IsShared R.row };

    fn all_matches_by(
        &self,
        alloc: Global,
        workers: u32,
        graph: &MatchingGraph,
    ) -> Result<Vec<TupleList>, Memory> {
        all_matches_by(self, alloc, workers, graph)
    }
}
