//! Names, none of which stands twice.
ghost use Rattle.std.specs.Prelude.{◌≡◌, ◌++◌, ◌∷◌, [], false, bytes_eq, OnOk, OnErr};
ghost use Rattle.std.specs.List.{list_any};
ghost use Rattle.smt_names.specs.DistinctNames.{place_in};

use crate::entries;
use graph_terms::Memory;
use indexmap::IndexMap;
use std::alloc::Global;
use std::marker::Model;

/// Names, none of which stands twice, in the order in which they came. They are found by hash.
#[derive(Drop)]
pub struct DistinctNames {
    names: IndexMap<Vec<u8>, ()>,
}

impl Model for DistinctNames {
    ghost use Rattle.std.specs.Prelude.{List, ℕ, map};
    ghost use Rattle.smt_names.specs.Entries.{IsSmall, name_of};

    ghost Value = { List (List ℕ) };

    ghost view = { λ s. map name_of s.names.entries };

    ghost invariant = { λ s. IsSmall s.names.entries };
}

impl DistinctNames {
    /// None.
    pub fn new(alloc: Global) -> DistinctNames
        ensures { result ≡ [] }
    {
        DistinctNames {
            names: IndexMap::new(alloc),
        }
    }

    /// The place of a name.
    pub fn find(&self, name: &[u8]) -> Option<u32>
        ensures { result ≡ place_in self.now name.now }
    {
        entries::find(&self.names, name)
    }

    /// Whether the name is among them.
    pub fn contains(&self, name: &[u8]) -> bool
        ensures { result ≡ list_any (bytes_eq name.now) self.now }
    {
        self.find(name).is_some()
    }

    /// Puts a name last that is not among them.
    pub fn push(&mut self, name: &[u8]) -> Result<(), Memory>
        requires { list_any (bytes_eq name.now) self.old ≡ false }
        ensures ok { OnOk result (self.new ≡ self.old ++ name.now ∷ []) }
        ensures err { OnErr result (self.new ≡ self.old) }
    {
        let alloc = *self.names.allocator();
        let key = Vec::from_slice(alloc, name)?;
        entries::put(&mut self.names, key, ())
    }
}
