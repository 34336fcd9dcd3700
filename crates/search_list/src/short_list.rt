//! Lists that stand in other lists.
ghost use Rattle.std.specs.Prelude.{◌≡◌, ◌<◌, [], ◌∷◌, ◌++◌, length, take, slice_get, slice_set, Some, OnOk, OnErr};

use std::alloc::{AllocError, Global};
use std::marker::Model;

/// A list of fewer than 2 to the power of 32 items, which grows and shrinks at its end.
#[derive(Drop)]
pub struct ShortList<T> {
    items: Vec<T>,
}

impl<T> Model for ShortList<T> {
    ghost use Rattle.std.specs.Prelude.{List, ◌<◌, ◌^◌, length};

    ghost Value = { List T };

    ghost view = { λ list. list.items.items };

    ghost invariant = { λ list. length list.items.items < 2 ^ 32 };
}

impl<T: Copy> ShortList<T> {
    /// An empty list. It takes no memory.
    pub fn new(alloc: Global) -> ShortList<T>
        ensures { result ≡ [] }
    {
        ShortList {
            items: Vec::new(alloc),
        }
    }

    /// How many there are.
    pub fn len(&self) -> u32
        ensures { result ≡ length self.now }
    {
        self.items.len() as u32
    }

    /// The i-th one, counted from 0.
    pub fn get(&self, i: u32) -> T
        requires { i < length self.now }
        ensures { slice_get self.now i ≡ Some result }
    {
        self.items[i as usize]
    }

    /// Changes the i-th one.
    pub fn set(&mut self, i: u32, item: T)
        requires { i < length self.old }
        ensures { self.new ≡ slice_set self.old i item }
    {
        self.items[i as usize] = item;
    }

    /// Puts one last. A refusal is want of memory or of room, and the list is as before then.
    pub fn push(&mut self, item: T) -> Result<(), AllocError>
        ensures ok { OnOk result (self.new ≡ self.old ++ item ∷ []) }
        ensures err { OnErr result (self.new ≡ self.old) }
    {
        if self.items.len() >= u32::MAX as usize {
            return Err(AllocError);
        }
        self.items.push(item)?;
        Ok(())
    }

    /// Keeps the first ones, so many at most. It takes no memory.
    pub fn truncate(&mut self, len: u32)
        ensures { self.new ≡ take len self.old }
    {
        self.items.truncate(len as usize);
    }
}
