//! The matches of the live triggers, each under its forall: one list, in order.
ghost use Rattle.std.specs.Prelude.{◌≡◌, ◌++◌, ◌∷◌, map, IfOk, OnOk};
ghost use Rattle.graph_meaning.specs.Standing.{triggers_of};
ghost use Rattle.match_graph.specs.AllMatches.{AreAllMatches};
ghost use Rattle.match_store.specs.Candidates.{AreCandidates, HaveMatches};

use graph_meaning::ClassGraph;
use graph_terms::{Memory, Numbers};
use match_graph::{Matchers, MatchingGraph};
use match_machine::TupleList;
use std::alloc::Global;

/// The forall, and then the terms.
fn match_key(alloc: Global, forall: u32, tuple: &[u32]) -> Result<Numbers, Memory>
    ensures { IfOk result (λ key. key ≡ forall ∷ tuple.now) }
{
    let mut key = Vec::new(alloc);
    key.push(forall)?;
    key.extend_from_slice(tuple)?;
    Numbers::from_slice(alloc, key.as_slice())
}

/// Puts the key of each tuple last.
fn put_tuples(
    alloc: Global,
    forall: u32,
    tuples: &[Numbers],
    keys: &mut TupleList,
) -> Result<(), Memory>
    ensures { OnOk result (keys.new ≡ keys.old ++ map (λ tuple. forall ∷ tuple) tuples.now) }
{
    for tuple in tuples {
        let key = match_key(alloc, forall, tuple.as_slice())?;
        keys.push(key)?;
    }
    Ok(())
}

/// The keys of the matches of each trigger, one trigger after another.
fn gathered<G: ClassGraph>(
    alloc: Global,
    graph: &G,
    lists: &[TupleList],
) -> Result<TupleList, Memory>
    requires { AreAllMatches (G.standing graph.now) lists.now }
    ensures { IfOk result (λ keys. HaveMatches (G.standing graph.now) (triggers_of (G.standing graph.now)) keys) }
{
    let mut keys = TupleList::new(alloc);
    for n in 0..graph.triggers() {
        let trigger = graph.trigger(n);
        let tuples = lists[n as usize].as_slice();
        put_tuples(alloc, trigger.forall, tuples, &mut keys)?;
    }
    Ok(keys)
}

/// The matches of all live triggers, each under its forall, in order, each once.
pub fn candidates<M: Matchers>(
    alloc: Global,
    matchers: &M,
    graph: &MatchingGraph,
) -> Result<TupleList, Memory>
    ensures { IfOk result (λ keys. AreCandidates graph.now.standing keys) }
{
    let lists = matchers.all_matches(alloc, graph)?;
    let mut keys = gathered(alloc, graph, lists.as_slice())?;
    keys.arrange()?;
    Ok(keys)
}
