//! Who finds the matches.
ghost use Rattle.std.specs.Prelude.{IfOk};
ghost use Rattle.match_graph.specs.AllMatches.{AreAllMatches};

use crate::graph::MatchingGraph;
use graph_terms::Memory;
use match_machine::TupleList;
use std::alloc::Global;

/// Who finds the matches of the live triggers of a graph. Whoever it is, they are the same.
pub trait Matchers {
    /// For each live trigger all its matches, as tuples of leaders in lexicographic order, each once. `Memory` comes
    /// where memory is refused.
    fn all_matches(&self, alloc: Global, graph: &MatchingGraph) -> Result<Vec<TupleList>, Memory>
        ensures { IfOk result (λ lists. AreAllMatches graph.now.standing lists.items) };
}

/// The thread of the caller, and no other.
#[derive(Clone, Copy, Debug)]
pub struct Alone;

impl Matchers for Alone {
    fn all_matches(&self, alloc: Global, graph: &MatchingGraph) -> Result<Vec<TupleList>, Memory> {
        graph.all_matches(alloc)
    }
}
