//! A list of numbers that rise.
ghost use Rattle.std.specs.Prelude.{◌≡◌, ◌<◌, ℕ, [], AllPairs, IfOk, OnErr, IsTrue, ◌↔◌, slice_get, remove};
ghost use Rattle.graph_classes.specs.Rising.{Enters};

use graph_terms::Memory;
use smallvec::SmallVec;
use std::alloc::Global;
use std::marker::Model;

/// Numbers, the least first, none twice. Up to four are kept in the value itself.
#[derive(Drop)]
pub struct Rising {
    items: SmallVec<u32, 4>,
}

impl Model for Rising {
    ghost use Rattle.std.specs.Prelude.{ℕ, List, ◌<◌, AllPairs};

    ghost Value = { List ℕ };

    ghost view = { λ rising. rising.items.items };

    ghost invariant = { λ rising. AllPairs (λ a b. a < b) rising.items.items };
}

impl Rising {
    /// A list without numbers.
    pub fn new(alloc: Global) -> Rising
        ensures { result ≡ [] }
    {
        Rising {
            items: SmallVec::new(alloc),
        }
    }

    /// Whether it has no numbers.
    pub fn is_empty(&self) -> bool
        ensures { IsTrue result ↔ (self.now ≡ []) }
    {
        self.items.is_empty()
    }

    /// The k-th number, counted from 0.
    pub fn get(&self, k: usize) -> Option<u32>
        ensures value { result ≡ slice_get self.now k }
        ensures rising { AllPairs (λ a b. a < b) self.now }
    {
        self.items.as_slice().get(k).copied()
    }

    /// Puts a number at its place, and tells the place, or none where the number is there already.
    pub fn enter(&mut self, item: u32) -> Result<Option<usize>, Memory>
        ensures ok { IfOk result (λ at. Enters self.old self.new item at) }
        ensures err { OnErr result (self.new ≡ self.old) }
    {
        match self.items.as_slice().binary_search(&item) {
            Ok(_) => Ok(None),
            Err(at) => {
                self.items.insert(at, item)?;
                Ok(Some(at))
            }
        }
    }

    /// Takes the number at the place out, if there is one.
    pub fn leave(&mut self, at: usize)
        ensures { self.new ≡ remove self.old at }
    {
        if at < self.items.len() {
            let _item = self.items.remove(at);
        }
    }
}
