//! A matcher with a deque of its own.
ghost use Rattle.std.specs.Prelude.{◌≡◌, ◌+◌, ◌<◌, ℕ, ◌++◌, ◌∷◌, [], All, MatchOption, vec_len, vec_capacity};
ghost use Rattle.crossbeam_deque.specs.Handles.{worker_flavor, worker_view};
ghost use Rattle.match_pool.specs.Dealing.{IsAllTaken};
ghost use Rattle.match_pool.specs.Found.{weight};
ghost use Rattle.match_pool.specs.Once.{IsAnswerIn, IsAsked};
ghost use Rattle.match_pool.specs.Ring.{HasWorked, IsFresh};
ghost use Rattle.match_pool.specs.Stealing.{IsSameOwner, robbed, stolen, weight_of};
ghost use Rattle.match_pool.specs.Weights.{weigh};

use crate::deal::{Owner, Take};
use crate::findings::Findings;
use crate::gate::Gate;
use crate::thief::Thief;
use graph_meaning::ClassGraph;
use match_forest::CodeForest;
use match_machine::Batch;
use std::alloc::Global;

/// A matcher: its number, its deque, what it steals from the next one's with, and what it found.
#[derive(Drop)]
pub struct Matcher {
    pub worker: u32,
    pub own: Owner,
    pub next: Option<Thief>,
    pub found: Findings,
}

/// Takes a number from the front of an own deque.
pub fn pop_own(own: &mut Owner) -> Option<u32>
    requires fifo { worker_flavor own.old ≡ 0 }
    requires part { 0 < (worker_view own.old).parts }
    ensures same { IsSameOwner own.old own.new }
    ensures taken { MatchOption result ((worker_view own.new ≡ worker_view own.old) × IsAllTaken (worker_view own.old)) (λ number. (worker_view own.new).taken ≡ (worker_view own.old).taken ++ number ∷ []) }
{
    own.pop_as::<Take>()
}

/// One try at the deque of the next one.
fn rob(next: &mut Option<Thief>) -> Option<u32>
    ensures same { robbed next.new ≡ robbed next.old }
    ensures taken { MatchOption result (stolen next.new ≡ stolen next.old) (λ number. stolen next.new ≡ stolen next.old ++ number ∷ []) }
{
    match next {
        Some(thief) => thief.steal(),
        None => None,
    }
}

/// The next number, from its own deque, or where that is empty by one try from the next one's.
fn next_number(own: &mut Owner, next: &mut Option<Thief>) -> Option<u32>
    requires fifo { worker_flavor own.old ≡ 0 }
    requires part { 0 < (worker_view own.old).parts }
    ensures same { IsSameOwner own.old own.new }
    ensures robbed { robbed next.new ≡ robbed next.old }
    ensures taken { (h : ℕ → ℕ) → weigh h (worker_view own.new).taken + weigh h (stolen next.new) ≡ weigh h (worker_view own.old).taken + weigh h (stolen next.old) + weight_of h result }
{
    match pop_own(own) {
        Some(number) => Some(number),
        None => rob(next),
    }
}

/// Takes numbers and runs their items, until there is none to be had.
fn work_on<G: ClassGraph, T: Gate>(
    alloc: Global,
    forest: &CodeForest,
    graph: &G,
    gate: &T,
    batch: &Batch,
    worker: u32,
    own: &mut Owner,
    next: &mut Option<Thief>,
    found: &mut Findings,
)
    requires asked { All (IsAsked forest.now) batch.now }
    requires owner { (worker_flavor own.old ≡ 0) × (0 < (worker_view own.old).parts) }
    requires fresh { ((worker_view own.old).taken ≡ []) × (stolen next.old ≡ []) }
    requires empty { (found.old.answers.items ≡ []) × (found.old.starved.items ≡ []) }
    ensures same { IsSameOwner own.old own.new }
    ensures robbed { robbed next.new ≡ robbed next.old }
    ensures told { (h : ℕ → ℕ) → weight h found.new ≡ weigh h (worker_view own.new).taken + weigh h (stolen next.new) }
    ensures answers { All (IsAnswerIn (G.standing graph.now) (G.done graph.now) forest.now batch.now) found.new.answers.items }
{
    let room = found.starved.capacity();
    for i in 0..room {
        let _turn = i;
        let Some(number) = next_number(own, next) else {
            break;
        };
        found.take_on(alloc, forest, graph, gate, batch, worker, number);
    }
}

/// Runs a matcher. It takes no more numbers than it has room for starved ones, which is enough for its own deque and the
/// next one's.
pub fn run_matcher<G: ClassGraph, T: Gate>(
    alloc: Global,
    forest: &CodeForest,
    graph: &G,
    gate: &T,
    batch: &Batch,
    matcher: &mut Matcher,
)
    requires asked { All (IsAsked forest.now) batch.now }
    requires fresh { IsFresh matcher.old }
    ensures { HasWorked (IsAnswerIn (G.standing graph.now) (G.done graph.now) forest.now batch.now) matcher.old matcher.new }
{
    work_on(
        alloc,
        forest,
        graph,
        gate,
        batch,
        matcher.worker,
        &mut matcher.own,
        &mut matcher.next,
        &mut matcher.found,
    );
}
