//! Nodes of trees, each with its label.
ghost use Rattle.std.specs.Prelude.{◌≡◌, ℕ, ◌+◌, ◌-◌, ◌^◌, ◌<◌, ◌≤◌, List, All, length, slice_get, Some, IfOk, IfSome, IfNone, OnOk, OnErr};
ghost use Rattle.graph_meaning.specs.Questions.{AreAll, IsNth};
ghost use Rattle.match_trees.specs.Trees.{AreTrees, IsRoot, Path, trees_front, with_node};
ghost use Rattle.match_trees.specs.Growth.{Extends, Leads, Puts};
ghost use Rattle.match_trees.specs.NodesInside.{above_of};

use crate::index::Index;
use crate::label::Label;
use graph_terms::Memory;
use std::alloc::Global;
use std::marker::Model;

/// Nodes by number. What begins alike is shared: two roots, or two nodes next after one, differ.
#[derive(Debug, Drop)]
pub struct NodeTable<L> {
    after: Index,
    labels: Vec<L>,
}

impl<L> Model for NodeTable<L> {
    ghost use Rattle.match_trees.specs.Trees.{Trees};

    ghost Value = { Trees L };

    ghost use Rattle.match_trees.specs.NodesInside.{trees_of, IsSound};

    ghost view = { λ nodes. trees_of nodes };

    ghost invariant = { λ nodes. IsSound nodes };
}

/// The key under which the nodes next after this one are kept, or the roots.
fn key_of(at: Option<u32>) -> u32
    requires { IfSome at (λ node. node + 1 < 2 ^ 32) }
    ensures { above_of result ≡ at }
{
    match at {
        None => 0,
        Some(node) => node + 1,
    }
}

/// The label at the place.
fn label_at<L>(way: &[L], i: usize) -> &L
    requires { i < length way.now }
    ensures { slice_get way.now i ≡ Some result.now }
{
    &way[i]
}

impl<L: Label> NodeTable<L> {
    /// No nodes.
    pub fn new(alloc: Global) -> NodeTable<L>
        ensures { length result.labels ≡ 0 }
    {
        NodeTable {
            after: Index::new(alloc),
            labels: Vec::new(alloc),
        }
    }

    /// The number of nodes.
    pub fn len(&self) -> u32
        ensures value { result ≡ length self.now.labels }
        ensures trees { AreTrees self.now }
        ensures few { length self.now.labels < 2 ^ 32 }
    {
        self.labels.len() as u32
    }

    /// The label of a node.
    pub fn label(&self, node: u32) -> &L
        requires { node < length self.now.labels }
        ensures { slice_get self.now.labels node ≡ Some result.now }
    {
        &self.labels[node as usize]
    }

    /// The node above, if the node is no root.
    pub fn above(&self, node: u32) -> Option<u32>
        requires { node < length self.now.labels }
        ensures { slice_get self.now.above node ≡ Some result }
    {
        let _labels = &self.labels;
        let key = self.after.key(node);
        if key == 0 {
            return None;
        }
        Some(key - 1)
    }

    /// The nodes next after this one, or the roots, rising.
    pub fn nexts(&self, at: Option<u32>) -> &[u32]
        requires { IfSome at (λ node. node < length self.now.labels) }
        ensures exact { AreAll (λ n. slice_get self.now.above n ≡ Some at) result.now }
        ensures within { All (λ node. node < length self.now.labels) result.now }
    {
        let _labels = &self.labels;
        self.after.places(key_of(at))
    }

    /// The k-th node next after this one, or the k-th root, counted from 0.
    pub fn nth(&self, at: Option<u32>, k: u32) -> Option<u32>
        requires { IfSome at (λ node. node < length self.now.labels) }
        ensures { IsNth (λ n. slice_get self.now.above n ≡ Some at) k result }
    {
        let nexts = self.nexts(at);
        nexts.get(k as usize).copied()
    }

    /// The root above a node.
    pub fn root_above(&self, node: u32) -> u32
        requires { node < length self.now.labels }
        ensures root { IsRoot self.now result }
        ensures path { (code : List L) × Path self.now result node code }
    {
        let _len = self.len();
        let mut top = node;
        while let Some(above) = self.above(top) {
            top = above;
        }
        top
    }

    /// The number of a root among the roots.
    pub fn root_number(&self, root: u32) -> u32
        requires { IsRoot self.now root }
        ensures { IsNth (IsRoot self.now) result (Some root) }
    {
        let _len = self.len();
        for (number, other) in self.nexts(None).iter().enumerate() {
            if *other == root {
                return number as u32;
            }
        }
        unreachable!()
    }

    /// The node next after this one, or the root, with this label.
    pub fn next_with(&self, at: Option<u32>, label: &L) -> Option<u32>
        requires { IfSome at (λ node. node < length self.now.labels) }
        ensures place { IfSome result (λ node. slice_get self.now.above node ≡ Some at) }
        ensures has { IfSome result (λ node. slice_get self.now.labels node ≡ Some label.now) }
        ensures none { IfNone result ((n : ℕ) → slice_get self.now.above n ≡ Some at → slice_get self.now.labels n ≡ Some label.now → ⊥) }
    {
        let _len = self.len();
        let nexts = self.nexts(at);
        for node in nexts {
            if self.label(*node).is_same(label) {
                return Some(*node);
            }
        }
        None
    }

    /// Puts a node last.
    fn push(&mut self, at: Option<u32>, label: L) -> Result<(), Memory>
        requires at { IfSome at (λ node. node < length self.old.labels) }
        requires differs { (n : ℕ) → slice_get self.old.above n ≡ Some at → slice_get self.old.labels n ≡ Some label → ⊥ }
        ensures ok { OnOk result (self.new ≡ with_node self.old at label) }
        ensures err { OnErr result (self.new ≡ self.old) }
    {
        let nodes = self.labels.len();
        if nodes >= u32::MAX as usize {
            return Err(Memory);
        }
        let key = key_of(at);
        self.labels.push(label)?;
        match self.after.push(key) {
            Ok(()) => Ok(()),
            Err(refused) => {
                self.labels.truncate(nodes);
                Err(refused)
            }
        }
    }

    /// The node at this place with this label, which is put last where there is none.
    fn put(&mut self, alloc: Global, at: Option<u32>, label: &L) -> Result<u32, Memory>
        requires { IfSome at (λ node. node < length self.old.labels) }
        ensures ok { IfOk result (λ node. Puts self.old self.new at label.now node) }
        ensures err { OnErr result (self.new ≡ self.old) }
    {
        let node = self.len();
        if let Some(there) = self.next_with(at, label) {
            return Ok(there);
        }
        let label = label.copy(alloc)?;
        self.push(at, label)?;
        Ok(node)
    }

    /// The node to which the labels lead. Nodes are put last where there are none.
    pub fn put_way(&mut self, alloc: Global, way: &[L]) -> Result<u32, Memory>
        requires { 0 < length way.now }
        ensures ok { IfOk result (λ end. Leads self.old self.new way.now end) }
        ensures grows { Extends self.old self.new }
    {
        let _len = self.len();
        let mut end = self.put(alloc, None, label_at(way, 0))?;
        for i in 1..way.len() {
            end = self.put(alloc, Some(end), label_at(way, i))?;
        }
        Ok(end)
    }

    /// Takes the last node away.
    fn pop(&mut self)
        requires { 0 < length self.old.labels }
        ensures { self.new ≡ trees_front (length self.old.labels - 1) self.old }
    {
        let nodes = self.labels.len();
        self.labels.truncate(nodes - 1);
        self.after.pop();
    }

    /// Keeps the first nodes.
    pub fn cut(&mut self, nodes: u32)
        requires { nodes ≤ length self.old.labels }
        ensures { self.new ≡ trees_front nodes self.old }
    {
        while self.len() > nodes {
            self.pop();
        }
    }
}
