//! The table of signatures.
ghost use Rattle.std.specs.Prelude.{◌≡◌, ◌<◌, ℕ, List, [], ◌∷◌, ◌++◌, length, take, ◌-◌, slice_index, IfOk, OnOk, OnErr, option_copied, None};
ghost use Rattle.graph_classes.specs.Table.{found};

use graph_terms::Memory;
use indexmap::IndexMap;
use std::alloc::Global;
use std::marker::Model;

/// The signatures that were met, in the order in which they came, each with its first term.
///
/// A signature is a symbol and the labels of the arguments. Those of labels that are gone stay.
#[derive(Drop)]
pub struct Signatures {
    entries: IndexMap<Vec<u32>, u32>,
}

impl Model for Signatures {
    ghost use Rattle.std.specs.Prelude.{ℕ, List};
    ghost use Rattle.graph_classes.specs.Table.{shown_entries};

    ghost Value = { List (List ℕ × ℕ) };

    ghost view = { λ signatures. shown_entries signatures.entries.entries };
}

impl Signatures {
    /// An empty table.
    pub fn new(alloc: Global) -> Signatures
        ensures { result ≡ [] }
    {
        Signatures {
            entries: IndexMap::new(alloc),
        }
    }

    /// The term with the signature.
    pub fn find(&self, key: &[u32]) -> Option<u32>
        ensures { result ≡ found self.now key.now }
    {
        self.entries.get(key).copied()
    }

    /// Puts a new signature last.
    pub fn enter(&mut self, key: Vec<u32>, term: u32) -> Result<(), Memory>
        requires { found self.old key.items ≡ None }
        ensures ok { OnOk result (self.new ≡ self.old ++ (key.items, term) ∷ []) }
        ensures err { OnErr result (self.new ≡ self.old) }
    {
        self.entries.insert(key, term)?;
        Ok(())
    }

    /// Takes the last entry off, if there is one.
    pub fn shorten(&mut self)
        ensures { self.new ≡ take (length self.old - 1) self.old }
    {
        let _ = self.entries.pop();
    }
}
