//! A set of keys, found by hash.
ghost use Rattle.std.specs.Prelude.{◌≡◌, ◌↔◌, [], Contains, IsTrue, OnOk};
ghost use Rattle.match_store.specs.KeySet.{GainsKeys};

use graph_terms::Memory;
use indexmap::IndexSet;
use std::alloc::Global;
use std::marker::Model;

/// Lists of numbers, each once. Contracts see a list.
#[derive(Drop)]
pub struct KeySet {
    keys: IndexSet<Vec<u32>>,
}

impl Model for KeySet {
    ghost use Rattle.std.specs.Prelude.{ℕ, List};
    ghost use Rattle.match_store.specs.KeySet.{lists_of};

    ghost Value = { List (List ℕ) };

    ghost view = { λ set. lists_of set.keys.keys };
}

impl KeySet {
    /// No keys.
    pub fn new(alloc: Global) -> KeySet
        ensures { result ≡ [] }
    {
        KeySet {
            keys: IndexSet::new(alloc),
        }
    }

    /// Whether the key is in the set.
    pub fn has(&self, key: &[u32]) -> bool
        ensures { IsTrue result ↔ Contains self.now key.now }
    {
        self.keys.contains(key)
    }

    /// Puts the key into the set.
    pub fn put(&mut self, key: Vec<u32>) -> Result<(), Memory>
        ensures { OnOk result (GainsKeys (λ other. key.items ≡ other) self.old self.new) }
    {
        self.keys.insert(key)?;
        Ok(())
    }
}
