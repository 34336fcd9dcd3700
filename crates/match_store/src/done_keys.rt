//! The keys of the instances that are done: a forall, and the leaders of the terms.
ghost use Rattle.std.specs.Prelude.{◌<◌, length, All, IfOk, OnOk};
ghost use Rattle.graph_meaning.specs.Standing.{terms_of};
ghost use Rattle.match_store.specs.Candidates.{AreDoneKeys, IsLeaderKey};
ghost use Rattle.match_store.specs.KeySet.{GainsKeys};

use crate::done_instances::DoneInstances;
use crate::instance::Instance;
use crate::key_set::KeySet;
use graph_meaning::ClassGraph;
use graph_terms::{Memory, are_below};
use std::alloc::Global;

/// The key of an instance of terms.
fn leader_key<G: ClassGraph>(
    alloc: Global,
    graph: &G,
    instance: &Instance,
) -> Result<Vec<u32>, Memory>
    requires { All (λ term. term < length (terms_of (G.standing graph.now))) instance.now.tuple }
    ensures { IfOk result (λ key. IsLeaderKey (G.standing graph.now) instance.now key.items) }
{
    let mut key = Vec::new(alloc);
    key.push(instance.forall)?;
    for term in instance.tuple.as_slice() {
        key.push(graph.leader(*term))?;
    }
    Ok(key)
}

/// Puts the key of the instance into the set, if its terms stand.
fn put_done<G: ClassGraph>(
    alloc: Global,
    graph: &G,
    instance: &Instance,
    keys: &mut KeySet,
) -> Result<(), Memory>
    ensures { OnOk result (GainsKeys (IsLeaderKey (G.standing graph.now) instance.now) keys.old keys.new) }
{
    let terms = graph.len();
    if are_below(instance.tuple.as_slice(), terms) {
        keys.put(leader_key(alloc, graph, instance)?)?;
    }
    Ok(())
}

/// The keys of the instances that are done.
pub fn done_keys<G: ClassGraph>(
    alloc: Global,
    graph: &G,
    done: &DoneInstances,
) -> Result<KeySet, Memory>
    ensures { IfOk result (λ keys. AreDoneKeys (G.standing graph.now) done.now keys) }
{
    let mut keys = KeySet::new(alloc);
    for k in 0..done.len() {
        put_done(alloc, graph, done.get(k), &mut keys)?;
    }
    Ok(keys)
}
