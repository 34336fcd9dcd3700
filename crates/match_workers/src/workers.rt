//! So many matchers, who find the matches of a graph.
ghost use Rattle.std.specs.Prelude.{◌≡◌, ◌≤◌};

use crate::starts_matchers::StartsMatchers;
use graph_terms::Memory;
use match_graph::{Matchers, MatchingGraph};
use match_machine::TupleList;
use std::alloc::Global;
use std::marker::Model;

/// So many matchers, each in a thread of its own. With 0 of them the caller matches.
#[derive(Drop)]
pub struct Workers<'a, R: StartsMatchers> {
    rt: &'a R,
    workers: u32,
}

impl<'a, R: StartsMatchers> Model for Workers<'a, R> {
    ghost use Rattle.std.specs.Prelude.{ℕ, ◌≤◌};

    ghost Value = { ℕ };

    ghost view = { λ matchers. matchers.workers };

    ghost invariant = { λ matchers. (matchers.workers ≤ 64) × R.shared };
}

impl<'a, R: StartsMatchers> Workers<'a, R> {
    /// So many matchers, which are 64 at most. They are started at each call that matches, and end before it does.
    pub fn new(rt: &'a R, workers: u32) -> Workers<'a, R>
        requires few { workers ≤ 64 }
        requires shared { R.shared }
        ensures { result ≡ workers }
    {
        Workers { rt, workers }
    }
}

impl<'a, R: StartsMatchers> Matchers for Workers<'a, R> {
    fn all_matches(&self, alloc: Global, graph: &MatchingGraph) -> Result<Vec<TupleList>, Memory> {
        self.rt.all_matches_by(alloc, self.workers, graph)
    }
}
