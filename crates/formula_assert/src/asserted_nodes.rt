//! The numbers of the asserted nodes.
ghost use Rattle.std.specs.Prelude.{◌≡◌, ◌≤◌, ◌↔◌, ◌++◌, [], ◌∷◌, length, take, Contains, IsTrue, OnOk, OnErr};

use graph_terms::Memory;
use indexmap::IndexSet;
use std::alloc::Global;
use std::marker::Model;

/// Numbers of nodes in the order in which they were asserted, each once. Contracts see a list.
#[derive(Drop)]
pub struct AssertedNodes {
    nodes: IndexSet<u32>,
}

impl Model for AssertedNodes {
    ghost use Rattle.std.specs.Prelude.{ℕ, List};

    ghost Value = { List ℕ };

    ghost view = { λ asserted. asserted.nodes.keys };
}

impl AssertedNodes {
    /// None yet.
    pub fn new(alloc: Global) -> AssertedNodes
        ensures { result ≡ [] }
    {
        AssertedNodes {
            nodes: IndexSet::new(alloc),
        }
    }

    /// How many there are.
    pub fn len(&self) -> usize
        ensures { result ≡ length self.now }
    {
        self.nodes.len()
    }

    /// Whether the node is asserted.
    pub fn has(&self, n: u32) -> bool
        ensures { IsTrue result ↔ Contains self.now n }
    {
        self.nodes.contains(&n)
    }

    /// All of them, in order.
    pub fn as_slice(&self) -> &[u32]
        ensures { result.now ≡ self.now }
    {
        self.nodes.as_slice()
    }

    /// Puts a node last.
    pub fn put(&mut self, n: u32) -> Result<(), Memory>
        requires { Contains self.old n → ⊥ }
        ensures ok { OnOk result (self.new ≡ self.old ++ n ∷ []) }
        ensures err { OnErr result (self.new ≡ self.old) }
    {
        self.nodes.insert(n)?;
        Ok(())
    }

    /// Keeps the first ones.
    pub fn keep_first(&mut self, count: usize)
        ensures { self.new ≡ take count self.old }
    {
        self.nodes.truncate(count);
    }
}
