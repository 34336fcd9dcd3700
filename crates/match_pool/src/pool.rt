//! A batch run by a pool of matchers.
ghost use Rattle.std.specs.Prelude.{◌≡◌, ◌≤◌, ◌<◌, ◌++◌, [], ℕ, All, IfOk, length, max, replicate, vec_capacity};
ghost use Rattle.match_pool.specs.Once.{IsAnswerIn, IsAsked, IsEachOnce, items_of};
ghost use Rattle.match_pool.specs.Found.{weight};
ghost use Rattle.match_pool.specs.Weights.{weigh_below};

use crate::findings::Findings;
use crate::gate::Gate;
use crate::pieces::Pieces;
use crate::ring::{deal, gather, link, new_matchers, put_found, run_matchers};
use graph_meaning::ClassGraph;
use graph_terms::Memory;
use match_forest::CodeForest;
use match_machine::Batch;
use std::alloc::Global;
use std::thread::Threads;

/// The number under which the caller runs items.
const CALLER: u32 = 0;

/// Runs the items one after another.
fn run_each<G: ClassGraph, T: Gate>(
    alloc: Global,
    forest: &CodeForest,
    graph: &G,
    gate: &T,
    batch: &Batch,
    found: &mut Findings,
)
    requires asked { All (IsAsked forest.now) batch.now }
    requires empty { (found.old.answers.items ≡ []) × (found.old.starved.items ≡ []) }
    requires room { length batch.now ≤ vec_capacity found.old.starved }
    ensures told { (h : ℕ → ℕ) → weight h found.new ≡ weigh_below h (length batch.now) }
    ensures answers { All (IsAnswerIn (G.standing graph.now) (G.done graph.now) forest.now batch.now) found.new.answers.items }
{
    for number in 0..batch.len() {
        found.take_on(alloc, forest, graph, gate, batch, CALLER, number);
    }
}

/// Room for so many items.
fn new_pieces(alloc: Global, items: usize) -> Result<Pieces, Memory>
    ensures { IfOk result (λ pieces. (pieces.answers.items ≡ []) × (pieces.ran.items ≡ []) × (pieces.starved.items ≡ []) × (pieces.shut.items ≡ [])) }
{
    Ok(Pieces {
        answers: Vec::with_capacity(alloc, items)?,
        ran: Vec::with_capacity(alloc, items)?,
        starved: Vec::with_capacity(alloc, items)?,
        shut: Vec::new(alloc),
    })
}

/// Runs the batch in the thread of the caller.
fn match_alone<G: ClassGraph, T: Gate>(
    alloc: Global,
    batch: &Batch,
    forest: &CodeForest,
    graph: &G,
    gate: &T,
) -> Result<Pieces, Memory>
    requires asked { All (IsAsked forest.now) batch.now }
    ensures once { IfOk result (λ pieces. IsEachOnce (length batch.now) (items_of pieces.answers.items ++ (pieces.starved.items ++ pieces.shut.items))) }
    ensures answers { IfOk result (λ pieces. All (IsAnswerIn (G.standing graph.now) (G.done graph.now) forest.now batch.now) pieces.answers.items) }
    ensures ran { IfOk result (λ pieces. pieces.ran.items ≡ replicate (length pieces.answers.items) 0) }
    ensures shut { IfOk result (λ pieces. pieces.shut.items ≡ []) }
{
    let items = batch.len() as usize;
    let mut pieces = new_pieces(alloc, items)?;
    let mut found = Findings {
        answers: Vec::new(alloc),
        starved: Vec::with_capacity(alloc, items)?,
    };
    run_each(alloc, forest, graph, gate, batch, &mut found);
    put_found(&mut pieces, CALLER, &mut found)?;
    Ok(pieces)
}

/// How many starved numbers a matcher has room for: those of its own deque and of the next one's.
fn room_of(items: u32, workers: u32) -> usize
    requires { 0 < workers }
{
    (items / workers) as usize * 2 + 2
}

/// Runs the batch by matchers in threads of their own.
fn match_by<R: Threads + Sync, G: ClassGraph + Sync, T: Gate + Sync>(
    rt: &R,
    alloc: Global,
    workers: u32,
    batch: &Batch,
    forest: &CodeForest,
    graph: &G,
    gate: &T,
) -> Result<Pieces, Memory>
    requires workers { 0 < workers }
    requires asked { All (IsAsked forest.now) batch.now }
    ensures once { IfOk result (λ pieces. IsEachOnce (length batch.now) (items_of pieces.answers.items ++ (pieces.starved.items ++ pieces.shut.items))) }
    ensures answers { IfOk result (λ pieces. All (IsAnswerIn (G.standing graph.now) (G.done graph.now) forest.now batch.now) pieces.answers.items) }
    ensures each { IfOk result (λ pieces. length pieces.ran.items ≡ length pieces.answers.items) }
    ensures ran { IfOk result (λ pieces. All (λ worker. worker < workers) pieces.ran.items) }
    ensures shut { IfOk result (λ pieces. pieces.shut.items ≡ []) }
{
    let items = batch.len();
    let mut pieces = new_pieces(alloc, items as usize)?;
    let mut matchers = new_matchers(alloc, workers, room_of(items, workers))?;
    let ring = matchers.as_mut_slice();
    deal(ring, workers, items, &mut pieces.starved)?;
    link(ring, workers)?;
    run_matchers(rt, alloc, forest, graph, gate, batch, ring);
    gather(ring, &mut pieces)?;
    Ok(pieces)
}

/// Runs each item of the batch once, by `workers` matchers in threads of their own, or by the caller itself where that is
/// 0. Item i is put into the deque of the matcher with the number i modulo theirs. A matcher takes from its own deque,
/// and when that is empty it makes one try at the next one's, until that gives nothing. The gate is told of each item
/// before it is run. An item is starved where its handing out or its matching found no memory. Room for all answers is
/// reserved before the first item is run.
pub fn match_all<R: Threads + Sync, G: ClassGraph + Sync, T: Gate + Sync>(
    rt: &R,
    alloc: Global,
    workers: u32,
    batch: &Batch,
    forest: &CodeForest,
    graph: &G,
    gate: &T,
) -> Result<Pieces, Memory>
    requires workers { workers ≤ 64 }
    requires asked { All (IsAsked forest.now) batch.now }
    ensures once { IfOk result (λ pieces. IsEachOnce (length batch.now) (items_of pieces.answers.items ++ (pieces.starved.items ++ pieces.shut.items))) }
    ensures answers { IfOk result (λ pieces. All (IsAnswerIn (G.standing graph.now) (G.done graph.now) forest.now batch.now) pieces.answers.items) }
    ensures each { IfOk result (λ pieces. length pieces.ran.items ≡ length pieces.answers.items) }
    ensures ran { IfOk result (λ pieces. All (λ worker. worker < max workers 1) pieces.ran.items) }
    ensures shut { IfOk result (λ pieces. pieces.shut.items ≡ []) }
{
    if workers == 0 {
        return match_alone(alloc, batch, forest, graph, gate);
    }
    match_by(rt, alloc, workers, batch, forest, graph, gate)
}
