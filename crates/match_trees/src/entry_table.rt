//! Entries by number, with the nodes at which their ways end.
ghost use Rattle.std.specs.Prelude.{◌≡◌, ◌-◌, ◌<◌, ◌≤◌, length, slice_get, Some, OnOk, OnErr};
ghost use Rattle.graph_meaning.specs.Questions.{AreAll, IsNth};
ghost use Rattle.match_trees.specs.EntryList.{list_front, with_entry};

use crate::entry::Entry;
use crate::index::Index;
use graph_terms::Memory;
use std::alloc::Global;
use std::marker::Model;

/// Entries by number, with the nodes at which their ways end.
#[derive(Debug, Drop)]
pub struct EntryTable {
    entries: Vec<Entry>,
    ends: Index,
}

impl Model for EntryTable {
    ghost use Rattle.std.specs.Prelude.{◌≡◌, length};
    ghost use Rattle.match_trees.specs.EntryList.{EntryList};

    ghost Value = { EntryList };

    ghost view = { λ table. record { entries = table.entries.items; ends = table.ends } };

    ghost invariant = { λ table. length table.ends ≡ length table.entries.items };
}

impl EntryTable {
    /// No entries.
    pub fn new(alloc: Global) -> EntryTable
        ensures entries { length result.entries ≡ 0 }
        ensures ends { length result.ends ≡ 0 }
    {
        EntryTable {
            entries: Vec::new(alloc),
            ends: Index::new(alloc),
        }
    }

    /// The number of entries.
    pub fn len(&self) -> u32
        ensures value { result ≡ length self.now.entries }
        ensures each { length self.now.ends ≡ length self.now.entries }
    {
        let _entries = &self.entries;
        self.ends.len()
    }

    /// The entry with the number.
    pub fn entry(&self, number: u32) -> Entry
        requires { number < length self.now.entries }
        ensures { slice_get self.now.entries number ≡ Some result }
    {
        self.entries[number as usize]
    }

    /// The node at which the way of the entry ends.
    pub fn end(&self, number: u32) -> u32
        requires { number < length self.now.entries }
        ensures { slice_get self.now.ends number ≡ Some result }
    {
        let _entries = &self.entries;
        self.ends.key(number)
    }

    /// The entries whose way ends at the node, rising.
    pub fn ends_at(&self, node: u32) -> &[u32]
        ensures { AreAll (λ entry. slice_get self.now.ends entry ≡ Some node) result.now }
    {
        let _entries = &self.entries;
        self.ends.places(node)
    }

    /// The k-th entry whose way ends at the node, counted from 0.
    pub fn at(&self, node: u32, k: u32) -> Option<u32>
        ensures { IsNth (λ entry. slice_get self.now.ends entry ≡ Some node) k result }
    {
        let _entries = &self.entries;
        self.ends.place(node, k)
    }

    /// Puts one more entry last.
    pub fn push(&mut self, entry: Entry, end: u32) -> Result<(), Memory>
        ensures ok { OnOk result (self.new ≡ with_entry self.old entry end) }
        ensures err { OnErr result (self.new ≡ self.old) }
    {
        let entries = self.entries.len();
        self.entries.push(entry)?;
        match self.ends.push(end) {
            Ok(()) => Ok(()),
            Err(refused) => {
                self.entries.truncate(entries);
                Err(refused)
            }
        }
    }

    /// Takes the last entry away.
    fn pop(&mut self)
        requires { 0 < length self.old.entries }
        ensures { self.new ≡ list_front (length self.old.entries - 1) self.old }
    {
        let entries = self.entries.len();
        self.entries.truncate(entries - 1);
        self.ends.pop();
    }

    /// Keeps the first entries.
    pub fn cut(&mut self, entries: u32)
        requires { entries ≤ length self.old.entries }
        ensures { self.new ≡ list_front entries self.old }
    {
        while self.len() > entries {
            self.pop();
        }
    }
}
