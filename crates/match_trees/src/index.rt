//! Numbers under their keys.
ghost use Rattle.std.specs.Prelude.{◌≡◌, ◌-◌, ◌^◌, ◌<◌, ◌++◌, [], ◌∷◌, length, take, set, get_or, slice_get, Some, OnOk, OnErr};
ghost use Rattle.graph_meaning.specs.Questions.{AreAll, IsNth};
ghost use Rattle.match_trees.specs.Index.{GrewEmpty};

use crate::number_list::NumberList;
use graph_terms::Memory;
use std::alloc::Global;
use std::marker::Model;

/// A list of keys, with the numbers of the places at which each key stands.
#[derive(Debug, Drop)]
pub struct Index {
    alloc: Global,
    keys: Vec<u32>,
    lists: Vec<NumberList>,
}

impl Model for Index {
    ghost use Rattle.std.specs.Prelude.{ℕ, List};
    ghost use Rattle.match_trees.specs.Index.{IsIndexed};

    ghost Value = { List ℕ };

    ghost view = { λ index. index.keys.items };

    ghost invariant = { λ index. IsIndexed index.keys.items index.lists.items };
}

/// Empty lists come last, until there are more than `key`.
fn grow(alloc: Global, lists: &mut Vec<NumberList>, key: u32) -> Result<(), Memory>
    ensures grew { GrewEmpty lists.old.items lists.new.items }
    ensures ok { OnOk result (key < length lists.new.items) }
{
    for _turn in 0..u64::MAX {
        if (key as usize) < lists.len() {
            return Ok(());
        }
        lists.push(NumberList::new(alloc))?;
    }
    Err(Memory)
}

/// Puts a number last in the list at the place.
fn push_at(lists: &mut Vec<NumberList>, at: u32, number: u32) -> Result<(), Memory>
    requires { at < length lists.old.items }
    ensures ok { OnOk result (lists.new.items ≡ set lists.old.items at (get_or lists.old.items at [] ++ number ∷ [])) }
    ensures err { OnErr result (lists.new.items ≡ lists.old.items) }
{
    lists[at as usize].push(number)
}

/// Takes the last number of the list at the place away.
fn pop_at(lists: &mut Vec<NumberList>, at: u32)
    requires { at < length lists.old.items }
    ensures { lists.new.items ≡ set lists.old.items at (take (length (get_or lists.old.items at []) - 1) (get_or lists.old.items at [])) }
{
    lists[at as usize].pop();
}

impl Index {
    /// No keys.
    pub fn new(alloc: Global) -> Index
        ensures { result ≡ [] }
    {
        Index {
            alloc,
            keys: Vec::new(alloc),
            lists: Vec::new(alloc),
        }
    }

    /// The number of keys.
    pub fn len(&self) -> u32
        ensures value { result ≡ length self.now }
        ensures few { length self.now < 2 ^ 32 }
    {
        self.keys.len() as u32
    }

    /// The key at the place.
    pub fn key(&self, at: u32) -> u32
        requires { at < length self.now }
        ensures { slice_get self.now at ≡ Some result }
    {
        self.keys[at as usize]
    }

    /// The places of a key, rising.
    pub fn places(&self, key: u32) -> &[u32]
        ensures { AreAll (λ n. slice_get self.now n ≡ Some key) result.now }
    {
        if (key as usize) < self.lists.len() {
            return self.lists[key as usize].as_slice();
        }
        &[]
    }

    /// The k-th place of a key, counted from 0.
    pub fn place(&self, key: u32, k: u32) -> Option<u32>
        ensures { IsNth (λ n. slice_get self.now n ≡ Some key) k result }
    {
        self.places(key).get(k as usize).copied()
    }

    /// Puts one more key last.
    pub fn push(&mut self, key: u32) -> Result<(), Memory>
        ensures ok { OnOk result (self.new ≡ self.old ++ key ∷ []) }
        ensures err { OnErr result (self.new ≡ self.old) }
    {
        if self.keys.len() >= u32::MAX as usize {
            return Err(Memory);
        }
        let number = self.keys.len() as u32;
        grow(self.alloc, &mut self.lists, key)?;
        self.keys.push(key)?;
        match push_at(&mut self.lists, key, number) {
            Ok(()) => Ok(()),
            Err(refused) => {
                self.keys.truncate(number as usize);
                Err(refused)
            }
        }
    }

    /// Takes the last key away.
    pub fn pop(&mut self)
        requires { 0 < length self.old }
        ensures { self.new ≡ take (length self.old - 1) self.old }
    {
        if let Some(key) = self.keys.pop() {
            pop_at(&mut self.lists, key);
        }
    }
}
