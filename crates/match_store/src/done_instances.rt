//! The instances that are done.
ghost use Rattle.std.specs.Prelude.{◌≡◌, ◌<◌, ◌↔◌, ◌++◌, [], ◌∷◌, length, take, slice_get, Some, IsTrue, OnOk, OnErr};
ghost use Rattle.graph_meaning.specs.Same.{Same};
ghost use Rattle.match_store.specs.DoneInstances.{AreSameEach, IsDone};
ghost use Rattle.match_store.specs.Instance.{instance_of};

use crate::instance::Instance;
use graph_meaning::ClassGraph;
use graph_terms::{Memory, Numbers};
use std::alloc::Global;
use std::marker::Model;

/// The instances that are done, the last one last. Contracts see a list.
#[derive(Drop)]
pub struct DoneInstances {
    instances: Vec<Instance>,
}

impl Model for DoneInstances {
    ghost use Rattle.std.specs.Prelude.{List};
    ghost use Rattle.match_store.specs.declared.instance.Instance.{Instance};

    ghost Value = { List Instance };

    ghost view = { λ done. done.instances.items };
}

/// Whether two numbers are terms that are equal.
fn is_same<G: ClassGraph>(graph: &G, left: u32, right: u32) -> bool
    ensures { IsTrue result ↔ Same (G.standing graph.now) left right }
{
    let terms = graph.len();
    if left >= terms || right >= terms {
        return false;
    }
    graph.same(left, right)
}

/// Whether two tuples are of terms that are equal, place by place.
fn are_same<G: ClassGraph>(graph: &G, left: &[u32], right: &[u32]) -> bool
    ensures { IsTrue result ↔ AreSameEach (G.standing graph.now) left.now right.now }
{
    if left.len() != right.len() {
        return false;
    }
    for i in 0..left.len() {
        if !is_same(graph, left[i], right[i]) {
            return false;
        }
    }
    true
}

impl DoneInstances {
    /// None yet. It takes no memory.
    pub fn new(alloc: Global) -> DoneInstances
        ensures { result ≡ [] }
    {
        DoneInstances {
            instances: Vec::new(alloc),
        }
    }

    /// How many there are.
    pub fn len(&self) -> usize
        ensures { result ≡ length self.now }
    {
        self.instances.len()
    }

    /// The k-th one, counted from 0.
    pub fn get(&self, k: usize) -> &Instance
        requires { k < length self.now }
        ensures { slice_get self.now k ≡ Some result.now }
    {
        &self.instances[k]
    }

    /// Whether the instance is done: whether one of the forall is, of which each term is equal in the graph to the one at
    /// its place. It takes no memory, and looks at each that is done.
    pub fn has<G: ClassGraph>(&self, graph: &G, forall: u32, tuple: &[u32]) -> bool
        ensures { IsTrue result ↔ IsDone (G.standing graph.now) self.now (instance_of forall tuple.now) }
    {
        for instance in &self.instances {
            if instance.forall == forall && are_same(graph, instance.tuple.as_slice(), tuple) {
                return true;
            }
        }
        false
    }

    /// Puts one last. `Memory` comes where memory is refused or the tuple has more than `u32::MAX` terms, and the list is
    /// as before then.
    pub fn add(&mut self, forall: u32, tuple: &[u32]) -> Result<(), Memory>
        ensures ok { OnOk result (self.new ≡ self.old ++ instance_of forall tuple.now ∷ []) }
        ensures err { OnErr result (self.new ≡ self.old) }
    {
        let alloc = *self.instances.allocator();
        let tuple = Numbers::from_slice(alloc, tuple)?;
        self.instances.push(Instance { forall, tuple })?;
        Ok(())
    }

    /// Keeps the first ones, so many at most. It takes no memory.
    pub fn keep_first(&mut self, count: usize)
        ensures { self.new ≡ take count self.old }
    {
        self.instances.truncate(count);
    }
}
