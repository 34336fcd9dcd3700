//! For each class the numbers of what its terms end.
ghost use Rattle.std.specs.Prelude.{◌≡◌, ℕ, ◌<◌, ◌≤◌, ◌↔◌, length, slice_index, slice_set, take, ◌⊎◌, [], ◌∷◌, ◌++◌, IsTrue, OnOk, OnErr, IfOk};
ghost use Rattle.search_watch.specs.Chains.{Chained, AreChains, chain_at, slot_at, list_at, appended, chained, no_chains, with_term, without_term, with_list, with_slot, grown, HasChain};

use crate::link::Link;
use graph_trail::Undoable;
use search_list::ShortList;
use std::alloc::{AllocError, Global};
use std::marker::Model;

/// For each leader a list of numbers, its chain. A leader has the number of a slot, and the slot has the list; so where
/// classes are joined, only the shorter chain is copied.
#[derive(Drop)]
pub struct Chains {
    slots: Vec<u32>,
    lists: Vec<ShortList<u32>>,
}

impl Model for Chains {
    ghost use Rattle.search_watch.specs.Chains.{Chained, AreChains};

    ghost Value = { Chained };

    ghost view = { λ chains. record { slots = chains.slots.items; lists = chains.lists.items } };

    ghost invariant = { λ chains. AreChains (record { slots = chains.slots.items; lists = chains.lists.items }) };
}

impl Undoable for Chains {
    ghost use Rattle.search_watch.specs.Chains.{Chained, before_link, Unlinked, unlinked_gives_before};

    type Note = Link;

    ghost State = { Chained };

    ghost state = { λ chains. chains };

    ghost before = { before_link };

    ghost can_undo = { λ _ _. Unit {0} };

    ghost undo_leaves = { Unlinked };

    ghost undo_gives_before = { unlinked_gives_before };

    fn undo(&mut self, note: Link) {
        match note {
            Link::Added => self.drop_last(),
            Link::Grown { slot, len } => {
                if let Some(list) = self.lists.get_mut(slot as usize) {
                    list.truncate(len);
                }
            }
            Link::Led { leader, slot } => {
                if let Some(place) = self.slots.get_mut(leader as usize) {
                    *place = slot;
                }
            }
        }
    }
}

/// Puts a term's slot and list last. Without memory the slot may be put.
fn push_both(
    slots: &mut Vec<u32>,
    lists: &mut Vec<ShortList<u32>>,
    slot: u32,
    list: ShortList<u32>,
) -> Result<(), AllocError>
    ensures slots { OnOk result (slots.new.items ≡ slots.old.items ++ slot ∷ []) }
    ensures lists { OnOk result (lists.new.items ≡ lists.old.items ++ list ∷ []) }
    ensures slots_front { take (length slots.old.items) slots.new.items ≡ slots.old.items }
    ensures lists_front { take (length lists.old.items) lists.new.items ≡ lists.old.items }
{
    slots.push(slot)?;
    lists.push(list)?;
    Ok(())
}

impl Chains {
    /// No terms. It takes no memory.
    pub fn new(alloc: Global) -> Chains
        ensures { result ≡ no_chains }
    {
        Chains {
            slots: Vec::new(alloc),
            lists: Vec::new(alloc),
        }
    }

    /// One more term, which leads an empty list of its own. A refusal is want of memory or of room, and all is as before
    /// then.
    pub fn add_term(&mut self, alloc: Global) -> Result<(), AllocError>
        ensures ok { OnOk result (self.new ≡ with_term self.old) }
        ensures err { OnErr result (self.new ≡ self.old) }
    {
        let len = self.slots.len();
        if len >= u32::MAX as usize {
            return Err(AllocError);
        }
        let list = ShortList::new(alloc);
        match push_both(&mut self.slots, &mut self.lists, len as u32, list) {
            Ok(()) => Ok(()),
            Err(fault) => {
                self.slots.truncate(len);
                self.lists.truncate(len);
                Err(fault)
            }
        }
    }

    /// Takes the last term away, and its list, if there is one. It takes no memory.
    fn drop_last(&mut self)
        ensures { self.new ≡ without_term self.old }
    {
        let _slot = self.slots.pop();
        let _list = self.lists.pop();
    }

    /// How many terms there are.
    pub fn terms(&self) -> u32
        ensures terms { result ≡ length self.now.slots }
        ensures aligned { AreChains self.now }
    {
        let _lists = &self.lists;
        self.slots.len() as u32
    }

    /// Whether the leader has a chain.
    pub fn has_chain(&self, leader: u32) -> bool
        ensures { IsTrue result ↔ HasChain self.now leader }
    {
        match self.slots.get(leader as usize) {
            Some(slot) => (*slot as usize) < self.lists.len(),
            None => false,
        }
    }

    /// How many items the chain of a leader has.
    pub fn len(&self, leader: u32) -> u32
        requires { HasChain self.now leader }
        ensures { result ≡ length (chain_at self.now leader) }
    {
        self.lists[self.slots[leader as usize] as usize].len()
    }

    /// An item of the chain of a leader.
    pub fn get(&self, leader: u32, i: u32) -> u32
        requires leader { HasChain self.now leader }
        requires item { i < length (chain_at self.now leader) }
        ensures { result ≡ slice_index (chain_at self.now leader) i }
    {
        self.lists[self.slots[leader as usize] as usize].get(i)
    }

    /// The slot of a leader.
    pub fn slot(&self, leader: u32) -> u32
        requires { leader < length self.now.slots }
        ensures { result ≡ slot_at self.now leader }
    {
        self.slots[leader as usize]
    }

    /// Gives a leader another slot. Takes no memory.
    pub fn lead(&mut self, leader: u32, slot: u32)
        requires { leader < length self.old.slots }
        ensures { self.new ≡ with_slot self.old leader slot }
    {
        self.slots[leader as usize] = slot;
    }

    /// Puts an item last in the list of a slot. A refusal is want of memory or of room, and all is as before then.
    pub fn grow(&mut self, slot: u32, item: u32) -> Result<(), AllocError>
        requires { slot < length self.old.lists }
        ensures ok { OnOk result (self.new ≡ grown self.old slot item) }
        ensures err { OnErr result (self.new ≡ self.old) }
    {
        let list = &mut self.lists[slot as usize];
        list.push(item)
    }

    /// Of two leaders the one whose chain is walked, which is not the longer one, and the other.
    pub fn sides(&self, left: u32, right: u32) -> (u32, u32)
        requires left { HasChain self.now left }
        requires right { HasChain self.now right }
        ensures sides { ((result.0 ≡ left) × (result.1 ≡ right)) ⊎ ((result.0 ≡ right) × (result.1 ≡ left)) }
        ensures shorter { length (chain_at self.now result.0) ≤ length (chain_at self.now result.1) }
    {
        if self.len(left) <= self.len(right) {
            (left, right)
        } else {
            (right, left)
        }
    }

    /// Puts the chain of one leader behind that of the other. A refusal is want of memory or of room, and a part may have
    /// been put then.
    pub fn append(&mut self, moved: u32, kept: u32) -> Result<(), AllocError>
        requires moved { HasChain self.old moved }
        requires kept { HasChain self.old kept }
        ensures ok { OnOk result (self.new ≡ appended self.old moved kept) }
        ensures front { self.new ≡ with_list self.old (slot_at self.old kept) (list_at self.new (slot_at self.old kept)) }
        ensures kept { take (length (chain_at self.old kept)) (list_at self.new (slot_at self.old kept)) ≡ chain_at self.old kept }
    {
        let into = self.slot(kept);
        for i in 0..self.len(moved) {
            let item = self.get(moved, i);
            self.grow(into, item)?;
        }
        Ok(())
    }

    /// Keeps the first items of the list of a slot. Takes no memory.
    fn cut_list(&mut self, slot: u32, len: u32)
        requires { slot < length self.old.lists }
        ensures { self.new ≡ with_list self.old slot (take len (list_at self.old slot)) }
    {
        let list = &mut self.lists[slot as usize];
        list.truncate(len);
    }

    /// Joins the chains of two leaders: that of the one is put behind that of the other, and the lesser one leads both.
    /// A refusal is want of memory or of room, and all is as before then.
    pub fn join(&mut self, moved: u32, kept: u32) -> Result<(), AllocError>
        requires moved { HasChain self.old moved }
        requires kept { HasChain self.old kept }
        ensures ok { OnOk result (self.new ≡ chained self.old moved kept) }
        ensures err { OnErr result (self.new ≡ self.old) }
    {
        let into = self.slot(kept);
        let len = self.len(kept);
        match self.append(moved, kept) {
            Ok(()) => {
                self.lead(moved.min(kept), into);
                Ok(())
            }
            Err(fault) => {
                self.cut_list(into, len);
                Err(fault)
            }
        }
    }
}
