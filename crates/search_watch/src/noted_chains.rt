//! Chains with the trail of their changes.
ghost use Rattle.std.specs.Prelude.{◌≡◌, ◌++◌, ◌∷◌, [], length, min, OnOk, OnErr};
ghost use Rattle.search_watch.specs.declared.link.Link.TheVariants.{Grown, Led};
ghost use Rattle.search_watch.specs.declared.noted_chains.NotedChains.{NotedChains as NotedChainsOf};
ghost use Rattle.search_watch.specs.Chains.{HasChain, chain_at, chained, with_item, with_term, slot_at};
ghost use Rattle.search_watch.specs.Noted.{IsNotedSince, no_noted};

use crate::chains::Chains;
use crate::link::Link;
use graph_trail::{Trail, Undoable};
use std::alloc::{AllocError, Global};

/// Chains with the trail of their changes.
#[derive(Drop)]
pub struct NotedChains {
    /// The chains as they are.
    pub chains: Chains,
    /// What undoes each change of them, the last change last.
    pub trail: Trail<Chains>,
}

impl NotedChains {
    /// No terms, and nothing to take back. It takes no memory.
    pub fn new(alloc: Global) -> NotedChains
        ensures { result ≡ no_noted }
    {
        NotedChains {
            chains: Chains::new(alloc),
            trail: Trail::new(alloc),
        }
    }

    /// Keeps the note of a change that is about to be made. A refusal is want of memory, and all is as before then.
    fn keep(&mut self, link: Link) -> Result<(), AllocError>
        ensures chains { self.new.chains ≡ self.old.chains }
        ensures ok { OnOk result (self.new.trail ≡ self.old.trail ++ link ∷ []) }
        ensures err { OnErr result (self.new.trail ≡ self.old.trail) }
    {
        match self.trail.note(link) {
            Ok(()) => Ok(()),
            Err(_refused) => Err(AllocError),
        }
    }

    /// One more term, which leads an empty list of its own. A refusal is want of memory or of room, and all is as before
    /// then.
    pub fn add_term(&mut self, alloc: Global) -> Result<(), AllocError>
        ensures ok { OnOk result (self.new.chains ≡ with_term self.old.chains) }
        ensures err { OnErr result (self.new ≡ self.old) }
        ensures noted { IsNotedSince self.old self.new }
    {
        self.chains.add_term(alloc)?;
        match self.trail.note(Link::Added) {
            Ok(()) => Ok(()),
            Err(refused) => {
                self.chains.undo(refused.note);
                Err(AllocError)
            }
        }
    }

    /// Puts an item last in the chain of a leader. A refusal is want of memory or of room, and the chains are as before then.
    pub fn put(&mut self, leader: u32, item: u32) -> Result<(), AllocError>
        requires { HasChain self.old.chains leader }
        ensures ok { OnOk result (self.new.chains ≡ with_item self.old.chains leader item) }
        ensures err { OnErr result (self.new.chains ≡ self.old.chains) }
        ensures noted { IsNotedSince self.old self.new }
    {
        let slot = self.chains.slot(leader);
        let len = self.chains.len(leader);
        self.keep(Link::Grown { slot, len })?;
        self.chains.grow(slot, item)
    }

    /// Notes which list leads the lesser of two leaders, and how long the list is that grows where they are joined. A
    /// refusal is want of memory.
    fn note_join(&mut self, moved: u32, kept: u32) -> Result<(), AllocError>
        requires moved { HasChain self.old.chains moved }
        requires kept { HasChain self.old.chains kept }
        ensures chains { self.new.chains ≡ self.old.chains }
        ensures ok { OnOk result (self.new.trail ≡ self.old.trail ++ Grown (slot_at self.old.chains kept) (length (chain_at self.old.chains kept)) ∷ Led (min moved kept) (slot_at self.old.chains (min moved kept)) ∷ []) }
        ensures noted { IsNotedSince self.old self.new }
    {
        let into = self.chains.slot(kept);
        let len = self.chains.len(kept);
        let least = moved.min(kept);
        let slot = self.chains.slot(least);
        self.keep(Link::Grown { slot: into, len })?;
        self.keep(Link::Led {
            leader: least,
            slot,
        })
    }

    /// Joins the chains of two leaders: that of the one is put behind that of the other, and the lesser one leads both.
    /// A refusal is want of memory or of room, and the chains are as before then.
    pub fn join(&mut self, moved: u32, kept: u32) -> Result<(), AllocError>
        requires moved { HasChain self.old.chains moved }
        requires kept { HasChain self.old.chains kept }
        ensures ok { OnOk result (self.new.chains ≡ chained self.old.chains moved kept) }
        ensures err { OnErr result (self.new.chains ≡ self.old.chains) }
        ensures noted { IsNotedSince self.old self.new }
    {
        self.note_join(moved, kept)?;
        self.chains.join(moved, kept)
    }

    /// Goes back to the chains and the notes that there were when there were so many notes. It takes no memory.
    pub fn back_to(&mut self, mark: u64)
        requires { (before : NotedChainsOf) × (length before.trail ≡ mark) × IsNotedSince before self.old }
        ensures { (before : NotedChainsOf) → length before.trail ≡ mark → IsNotedSince before self.old → self.new ≡ before }
    {
        self.trail.back_to_mark(&mut self.chains, mark);
    }
}
