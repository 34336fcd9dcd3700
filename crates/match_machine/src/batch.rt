//! Batches of matching work.
ghost use Rattle.std.specs.Prelude.{◌≡◌, ◌<◌, ◌++◌, [], ◌∷◌, length, slice_get, Some, OnOk, OnErr};
ghost use Rattle.match_machine.specs.Batch.{AreNumbered};

use crate::item::Item;
use graph_terms::Memory;
use std::alloc::Global;
use std::marker::Model;

/// A list of items whose numbers are 0, 1, 2 and so on.
#[derive(Debug, Drop)]
pub struct Batch {
    items: Vec<Item>,
}

impl Model for Batch {
    ghost use Rattle.std.specs.Prelude.{List};
    ghost use Rattle.match_machine.specs.declared.item.Item.{Item};
    ghost use Rattle.match_machine.specs.Batch.{IsBatch};

    ghost Value = { List Item };

    ghost view = { λ batch. batch.items.items };

    ghost invariant = { λ batch. IsBatch batch.items.items };
}

impl Batch {
    /// The batch of no items.
    pub fn new(alloc: Global) -> Batch
        ensures { result ≡ [] }
    {
        Batch {
            items: Vec::new(alloc),
        }
    }

    /// Puts one more item last.
    pub fn push(&mut self, item: Item) -> Result<(), Memory>
        requires { item.number ≡ length self.old }
        ensures ok { OnOk result (self.new ≡ self.old ++ item ∷ []) }
        ensures err { OnErr result (self.new ≡ self.old) }
    {
        if self.items.len() >= u32::MAX as usize {
            return Err(Memory);
        }
        self.items.push(item)?;
        Ok(())
    }

    /// The number of items.
    pub fn len(&self) -> u32
        ensures value { result ≡ length self.now }
        ensures numbered { AreNumbered self.now }
    {
        self.items.len() as u32
    }

    /// The item with the number.
    pub fn get(&self, i: u32) -> &Item
        requires { i < length self.now }
        ensures value { slice_get self.now i ≡ Some result.now }
        ensures number { result.now.number ≡ i }
    {
        &self.items[i as usize]
    }
}
