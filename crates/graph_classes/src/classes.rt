//! The parts of a graph with their trail, and the single changes.
ghost use Rattle.std.specs.Prelude.{◌≡◌, ◌<◌, ◌≤◌, ◌++◌, ◌∷◌, ◌≢◌, ℕ, List, [], length, slice_set, take, OnOk, OnErr, IfOk, None, Contains};
ghost use Rattle.graph_classes.specs.State.{state, before_change, list_at};
ghost use Rattle.graph_classes.specs.Table.{found};
ghost use Rattle.graph_classes.specs.History.{notes, now, state_at, KeepsHistory};
ghost use Rattle.graph_classes.specs.Closure.{signature as signature_of};
ghost use Rattle.graph_classes.specs.Indexed.{moved};
ghost use Rattle.graph_classes.specs.Listed.{IsListing};

use crate::change::Change;
use crate::parts::Parts;
use crate::place::Place;
use graph_meaning::Done;
use graph_terms::Memory;
use graph_trail::{Trail, Undoable};

/// The parts of a graph with the trail of their changes.
#[derive(Drop)]
pub struct Classes {
    /// What the graph has now.
    pub parts: Parts,
    /// What undoes each change of the parts, the last change last.
    pub trail: Trail<Parts>,
}

impl Classes {
    /// Undoes what came past the mark. Takes no memory.
    pub fn back_to(&mut self, mark: u64)
        requires { mark ≤ length (notes self.old) }
        ensures gives { now self.new ≡ state_at self.old mark }
        ensures kept { notes self.new ≡ take mark (notes self.old) }
        ensures at { (m : ℕ) → m ≤ mark → state_at self.new m ≡ state_at self.old m }
    {
        self.trail.back_to_mark(&mut self.parts, mark);
    }

    /// Notes the change that was just made. Where there is no room for the note, it undoes the change.
    pub(crate) fn keep(&mut self, change: Change) -> Result<(), Memory>
        ensures ok { OnOk result ((now self.new ≡ now self.old) × (notes self.new ≡ notes self.old ++ change ∷ [])) }
        ensures err { OnErr result ((now self.new ≡ before_change (now self.old) change) × (notes self.new ≡ notes self.old)) }
    {
        match self.trail.note(change) {
            Ok(()) => Ok(()),
            Err(refused) => {
                self.parts.undo(refused.note);
                Err(Memory)
            }
        }
    }

    /// Gives a term another label.
    pub(crate) fn set_label(&mut self, term: u32, label: u32) -> Result<(), Memory>
        requires { term < length self.old.parts.labels.items }
        ensures ok { OnOk result (now self.new ≡ record (now self.old) { labels = slice_set (now self.old).labels term label }) }
        ensures err { OnErr result (now self.new ≡ now self.old) }
        ensures history { KeepsHistory self.old self.new }
    {
        let old = self.parts.labels[term as usize];
        self.parts.labels[term as usize] = label;
        self.keep(Change::Labelled { term, old })
    }

    /// Gives a label one more member.
    pub(crate) fn add_member(&mut self, label: u32, term: u32) -> Result<(), Memory>
        requires { label < length self.old.parts.members.items }
        ensures ok { OnOk result (now self.new ≡ record (now self.old) { members = slice_set (now self.old).members label (list_at (now self.old).members label ++ term ∷ []) }) }
        ensures err { OnErr result (now self.new ≡ now self.old) }
        ensures history { KeepsHistory self.old self.new }
    {
        let list = &mut self.parts.members[label as usize];
        list.push(term)?;
        self.keep(Change::Joined { label })
    }

    /// Gives a label one more use.
    pub(crate) fn add_use(&mut self, label: u32, term: u32) -> Result<(), Memory>
        requires { label < length self.old.parts.uses.items }
        ensures ok { OnOk result (now self.new ≡ record (now self.old) { uses = slice_set (now self.old).uses label (list_at (now self.old).uses label ++ term ∷ []) }) }
        ensures err { OnErr result (now self.new ≡ now self.old) }
        ensures history { KeepsHistory self.old self.new }
    {
        let list = &mut self.parts.uses[label as usize];
        list.push(term)?;
        self.keep(Change::Used { label })
    }

    /// Enters a signature that is new.
    pub(crate) fn enter_signature(&mut self, key: Vec<u32>, term: u32) -> Result<(), Memory>
        requires { found self.old.parts.table key.items ≡ None }
        ensures ok { OnOk result (now self.new ≡ record (now self.old) { table = (now self.old).table ++ (key.items, term) ∷ [] }) }
        ensures err { OnErr result (now self.new ≡ now self.old) }
        ensures history { KeepsHistory self.old self.new }
    {
        self.parts.table.enter(key, term)?;
        self.keep(Change::Signed)
    }

    /// Gives the members of one label to another.
    pub(crate) fn relabel(&mut self, from: u32, into: u32) -> Result<(), Memory>
        requires from_in { from < length self.old.parts.members.items }
        requires into_in { into < length self.old.parts.members.items }
        requires apart { from ≢ into }
        requires members_in { (t : ℕ) → Contains (list_at self.old.parts.members.items from) t → t < length self.old.parts.labels.items }
        ensures ok { OnOk result (now self.new ≡ moved (now self.old) (list_at self.old.parts.members.items from) into) }
        ensures history { KeepsHistory self.old self.new }
    {
        let count = self.parts.members[from as usize].len();
        for i in 0..count {
            let term = self.parts.members[from as usize].get(i);
            self.set_label(term, into)?;
            self.add_member(into, term)?;
        }
        Ok(())
    }

    /// Puts an operation last.
    pub(crate) fn enter_done(&mut self, done: Done) -> Result<(), Memory>
        ensures ok { OnOk result (now self.new ≡ record (now self.old) { log = (now self.old).log ++ done ∷ [] }) }
        ensures err { OnErr result (now self.new ≡ now self.old) }
        ensures history { KeepsHistory self.old self.new }
    {
        self.parts.log.push(done)?;
        self.keep(Change::Logged)
    }

    /// Gives a label another leader.
    pub(crate) fn set_leader(&mut self, label: u32, leader: u32) -> Result<(), Memory>
        requires { label < length self.old.parts.leaders.items }
        ensures ok { OnOk result (now self.new ≡ record (now self.old) { leaders = slice_set (now self.old).leaders label leader }) }
        ensures err { OnErr result (now self.new ≡ now self.old) }
        ensures history { KeepsHistory self.old self.new }
    {
        let old = self.parts.leaders[label as usize];
        self.parts.leaders[label as usize] = leader;
        self.keep(Change::Led { label, old })
    }

    /// Puts a term into a list.
    pub(crate) fn list_term(&mut self, place: Place, term: u32) -> Result<(), Memory>
        ensures ok { OnOk result (IsListing (now self.old) (now self.new) place term) }
        ensures err { OnErr result (now self.new ≡ now self.old) }
        ensures history { KeepsHistory self.old self.new }
    {
        match self.parts.lists.enter(place, term)? {
            Some(at) => self.keep(Change::Listed { place, at }),
            None => Ok(()),
        }
    }
}
