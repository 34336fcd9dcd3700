//! Which instances are new.
ghost use Rattle.std.specs.Prelude.{◌≡◌, ◌<◌, length, map, All, IfOk};
ghost use Rattle.graph_meaning.specs.Match.{InOrder};
ghost use Rattle.match_store.specs.Candidates.{AreLeft};
ghost use Rattle.match_store.specs.Instance.{key_of};
ghost use Rattle.match_store.specs.New.{AreNew};

use crate::candidates::candidates;
use crate::done_instances::DoneInstances;
use crate::done_keys::done_keys;
use crate::instance::Instance;
use crate::key_set::KeySet;
use graph_terms::{Memory, Numbers};
use match_graph::{Matchers, MatchingGraph};
use std::alloc::Global;

/// The instance of a key.
fn keyed(alloc: Global, key: &[u32]) -> Result<Instance, Memory>
    requires { 0 < length key.now }
    ensures { IfOk result (λ instance. key_of instance ≡ key.now) }
{
    let tuple = Numbers::from_slice(alloc, &key[1..])?;
    Ok(Instance {
        forall: key[0],
        tuple,
    })
}

/// The instances of the candidates that are not done.
fn left_over(alloc: Global, candidates: &[Numbers], done: &KeySet) -> Result<Vec<Instance>, Memory>
    requires keys { All (λ key. 0 < length key) candidates.now }
    requires in_order { InOrder candidates.now }
    ensures { IfOk result (λ instances. AreLeft done.now candidates.now (map key_of instances.items)) }
{
    let mut instances = Vec::new(alloc);
    for key in candidates {
        if !done.has(key.as_slice()) {
            let instance = keyed(alloc, key.as_slice())?;
            instances.push(instance)?;
        }
    }
    Ok(instances)
}

/// The new instances, by forall and then by tuple, each once: the matches of the live triggers, as tuples of leaders,
/// of which no done instance of the forall is equal place by place. Terms of done instances that do not stand in the
/// graph equal none. The matchers find the matches: whoever they are, the instances are the same. It costs the matches
/// and the done instances, and not their product. `Memory` comes where memory is refused.
pub fn new_instances<M: Matchers>(
    alloc: Global,
    matchers: &M,
    graph: &MatchingGraph,
    done: &DoneInstances,
) -> Result<Vec<Instance>, Memory>
    ensures { IfOk result (λ instances. AreNew graph.now.standing done.now instances.items) }
{
    let found = candidates(alloc, matchers, graph)?;
    let keys = done_keys(alloc, graph, done)?;
    let instances = left_over(alloc, found.as_slice(), &keys)?;
    Ok(instances)
}
