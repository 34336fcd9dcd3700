//! Patterns by the symbols of their roots.
ghost use Rattle.std.specs.Prelude.{◌≡◌, ℕ, true, false, ◌-◌, ◌<◌, ◌≤◌, ◌++◌, [], ◌∷◌, List, length, take, slice_get, Some, OnOk, OnErr};
ghost use Rattle.graph_trigger.specs.declared.trigger.Trigger.{Trigger as SpecTrigger};
ghost use Rattle.match_trees.specs.declared.entry.Entry.{Entry as SpecEntry};
ghost use Rattle.match_owed.specs.Starts.{AreRising, Lists, ListsOne, Serves, SplitsAt};
ghost use Rattle.graph_meaning.specs.Questions.{AreAll};
ghost use Rattle.match_trees.specs.EntryList.{ExtendsList};

use crate::root_symbol::root_symbol;
use graph_terms::Memory;
use graph_trigger::Trigger;
use match_trees::laws::entry_law;
use match_trees::{Entry, EntryTable};
use std::alloc::Global;
use std::marker::Model;

/// The patterns of triggers, by the symbol at the root of each: at which starts of which triggers a term of a symbol may match.
#[derive(Debug, Drop)]
pub struct Starts {
    /// Each pattern, with its symbol in the place of an end.
    entries: EntryTable,
    triggers: u32,
}

impl Model for Starts {
    ghost use Rattle.match_owed.specs.Starts.{StartList, AreInOrder};

    ghost Value = { StartList };

    ghost view = { λ starts. record { list = starts.entries; triggers = starts.triggers } };

    ghost invariant = { λ starts. AreInOrder starts.entries starts.triggers };
}

/// Puts the pattern at the start last, with its symbol.
fn add_start(
    entries: &mut EntryTable,
    trigger: &Trigger,
    number: u32,
    start: u32,
) -> Result<(), Memory>
    ensures ok { OnOk result (ListsOne trigger.now number start entries.old entries.new) }
    ensures extends { ExtendsList entries.old entries.new }
{
    entry_law();
    let _entries = entries.len();
    match root_symbol(trigger, start) {
        Some(symbol) => {
            let entry = Entry {
                trigger: number,
                start,
            };
            entries.push(entry, symbol)?;
            Ok(())
        }
        None => Ok(()),
    }
}

/// Puts each pattern of the trigger last, with its symbol.
fn add_starts(entries: &mut EntryTable, trigger: &Trigger, number: u32) -> Result<(), Memory>
    ensures ok { OnOk result (Lists trigger.now number (length trigger.now.roots) entries.old entries.new) }
    ensures extends { ExtendsList entries.old entries.new }
{
    entry_law();
    let _entries = entries.len();
    for start in 0..trigger.roots.len() {
        add_start(entries, trigger, number, start)?;
    }
    Ok(())
}

/// Whether the last of so many entries is of none of the first triggers.
fn ends_past(entries: &EntryTable, count: u32, triggers: u32) -> bool
    requires { count ≤ length entries.now.entries }
    ensures yes { result ≡ true → (0 < count) × ((entry : SpecEntry) → slice_get entries.now.entries (count - 1) ≡ Some entry → triggers ≤ entry.trigger) }
    ensures no { result ≡ false → 0 < count → (entry : SpecEntry) → slice_get entries.now.entries (count - 1) ≡ Some entry → entry.trigger < triggers }
{
    if count == 0 {
        return false;
    }
    entries.entry(count - 1).trigger >= triggers
}

/// How many of the entries, which stand in the order of their triggers, are of the first triggers.
fn entries_of(entries: &EntryTable, triggers: u32) -> u32
    requires { AreRising entries.now }
    ensures few { result ≤ length entries.now.entries }
    ensures splits { SplitsAt entries.now triggers result }
{
    let mut count = entries.len();
    while ends_past(entries, count, triggers) {
        count -= 1;
    }
    count
}

impl Starts {
    /// The patterns of no triggers.
    pub fn new(alloc: Global) -> Starts
        ensures { Serves result [] }
    {
        Starts {
            entries: EntryTable::new(alloc),
            triggers: 0,
        }
    }

    /// How many triggers it has.
    pub fn len(&self) -> u32
        ensures { result ≡ self.now.triggers }
    {
        let _entries = &self.entries;
        self.triggers
    }

    /// Puts the patterns of a trigger, which gets the next number, counted from 0. `Memory` comes where memory is refused or
    /// there are `u32::MAX` triggers; all is then as before.
    pub fn insert(&mut self, trigger: &Trigger) -> Result<(), Memory>
        ensures serves { OnOk result ((triggers : List SpecTrigger) → Serves self.old triggers → Serves self.new (triggers ++ trigger.now ∷ [])) }
        ensures err { OnErr result (self.new ≡ self.old) }
    {
        if self.triggers == u32::MAX {
            return Err(Memory);
        }
        let count = self.entries.len();
        match add_starts(&mut self.entries, trigger, self.triggers) {
            Ok(()) => {
                self.triggers += 1;
                Ok(())
            }
            Err(refused) => {
                self.entries.cut(count);
                Err(refused)
            }
        }
    }

    /// Keeps as many of the first triggers, and their patterns. Takes no memory.
    pub fn cut(&mut self, triggers: u32)
        requires { triggers ≤ self.old.triggers }
        ensures { (all : List SpecTrigger) → Serves self.old all → Serves self.new (take triggers all) }
    {
        let count = entries_of(&self.entries, triggers);
        self.entries.cut(count);
        self.triggers = triggers;
    }

    /// The numbers of the entries with the symbol, rising.
    pub fn with_symbol(&self, symbol: u32) -> &[u32]
        ensures { AreAll (λ place. slice_get self.now.list.ends place ≡ Some symbol) result.now }
    {
        let _triggers = self.triggers;
        self.entries.ends_at(symbol)
    }

    /// The entry with the number: a trigger and a start.
    pub fn entry(&self, number: u32) -> Entry
        requires { (symbol : ℕ) × (slice_get self.now.list.ends number ≡ Some symbol) }
        ensures { slice_get self.now.list.entries number ≡ Some result }
    {
        let _triggers = self.triggers;
        let _each = self.entries.len();
        self.entries.entry(number)
    }
}
