//! Which literals and differences are looked at after unions of classes.
ghost use Rattle.std.specs.Prelude.{◌≡◌, ◌<◌, ◌⊎◌, ◌+◌, ◌++◌, ◌∷◌, ℕ, List, [], All, length, take, slice_get, Some, OnOk, OnErr};
ghost use Rattle.graph_meaning.specs.declared.union.Union.{Union as UnionOf};
ghost use Rattle.search_watch.specs.Chains.{chain_at, HasChain, with_both, with_term};
ghost use Rattle.search_watch.specs.Covers.{ItemsBelow};
ghost use Rattle.search_watch.specs.Watched.{World, IsWatched, LeadsTerm, with_difference, AreLed, Gathers, KeepsItems, LooksAtUnion, LooksAtUnions};
ghost use Rattle.search_watch.specs.Back.{IsMark, CanGoBack, no_watch};
ghost use Rattle.search_watch.specs.declared.watch.Watch.{Watch as WatchOf};

use crate::chains::Chains;
use crate::mark::Mark;
use crate::noted_chains::NotedChains;
use graph_meaning::Union;
use std::alloc::{AllocError, Global};

/// For each class the literals that its terms end, and the differences, with the trails of their changes.
#[derive(Drop)]
pub struct Watch {
    /// For each leader the literals that its terms end.
    pub literals: NotedChains,
    /// For each leader the differences that its terms end.
    pub differs: NotedChains,
}

/// Puts the items of a leader's chain last.
pub(crate) fn gather(chains: &Chains, leader: u32, found: &mut Vec<u32>) -> Result<(), AllocError>
    requires { HasChain chains.now leader }
    ensures { OnOk result (found.new.items ≡ found.old.items ++ chain_at chains.now leader) }
{
    for i in 0..chains.len(leader) {
        let item = chains.get(leader, i);
        found.push(item)?;
    }
    Ok(())
}

/// The first of two leaders, if it has not more than the other, and the other; else the other way round.
fn sides(watch: &Watch, left: u32, right: u32) -> (u32, u32)
    requires left { HasChain watch.now.literals.chains left × HasChain watch.now.differs.chains left }
    requires right { HasChain watch.now.literals.chains right × HasChain watch.now.differs.chains right }
    ensures { ((result.0 ≡ left) × (result.1 ≡ right)) ⊎ ((result.0 ≡ right) × (result.1 ≡ left)) }
{
    let of_left = watch.literals.chains.len(left) as u64 + watch.differs.chains.len(left) as u64;
    let of_right = watch.literals.chains.len(right) as u64 + watch.differs.chains.len(right) as u64;
    if of_left <= of_right {
        (left, right)
    } else {
        (right, left)
    }
}

impl Watch {
    /// No terms, and nothing to take back. It takes no memory.
    pub fn new(alloc: Global) -> Watch
        ensures { result ≡ no_watch }
    {
        Watch {
            literals: NotedChains::new(alloc),
            differs: NotedChains::new(alloc),
        }
    }

    /// Gives both chains one more term. A refusal is want of memory or of room, and a part may have been done then.
    fn try_term(&mut self, alloc: Global) -> Result<(), AllocError>
        ensures literals { OnOk result (self.new.literals.chains ≡ with_term self.old.literals.chains) }
        ensures differs { OnOk result (self.new.differs.chains ≡ with_term self.old.differs.chains) }
        ensures back { CanGoBack self.old self.new }
    {
        self.literals.add_term(alloc)?;
        self.differs.add_term(alloc)
    }

    /// One more term, which ends no literal and no difference. A refusal is want of memory or of room, and the watch is as
    /// before then.
    pub fn add_term(&mut self, alloc: Global) -> Result<(), AllocError>
        ensures literals { OnOk result (self.new.literals.chains ≡ with_term self.old.literals.chains) }
        ensures differs { OnOk result (self.new.differs.chains ≡ with_term self.old.differs.chains) }
        ensures err { OnErr result (self.new ≡ self.old) }
        ensures back { CanGoBack self.old self.new }
    {
        let mark = self.mark();
        match self.try_term(alloc) {
            Ok(()) => Ok(()),
            Err(fault) => {
                self.back_to(mark);
                Err(fault)
            }
        }
    }

    /// Looks at the literals and the differences of the class that moves at a union, and joins the chains. A refusal is want
    /// of memory or of room, and a part may have been done then.
    fn after_union(
        &mut self,
        unions: &[Union],
        k: usize,
        literals: &mut Vec<u32>,
        differs: &mut Vec<u32>,
    ) -> Result<(), AllocError>
        requires stands { k < length unions.now }
        requires watched { (world : World) × IsWatched world (take k unions.now) self.old × AreLed world unions.now }
        ensures watched { OnOk result ((world : World) → IsWatched world (take k unions.now) self.old → AreLed world unions.now → IsWatched world (take (k + 1) unions.now) self.new) }
        ensures looks { OnOk result ((world : World) → IsWatched world (take k unions.now) self.old → AreLed world unions.now → (union : UnionOf) → slice_get unions.now k ≡ Some union → LooksAtUnion world (take k unions.now) union literals.new.items differs.new.items) }
        ensures literals { OnOk result (Gathers literals.old.items literals.new.items) }
        ensures differs { OnOk result (Gathers differs.old.items differs.new.items) }
        ensures literals_below { OnOk result ((count : ℕ) → ItemsBelow count self.old.literals.chains → All (λ item. item < count) literals.old.items → All (λ item. item < count) literals.new.items) }
        ensures differs_below { OnOk result ((count : ℕ) → ItemsBelow count self.old.differs.chains → All (λ item. item < count) differs.old.items → All (λ item. item < count) differs.new.items) }
        ensures items { OnOk result (KeepsItems self.old self.new) }
        ensures back { CanGoBack self.old self.new }
    {
        let union = unions[k];
        let (moved, kept) = sides(self, union.left, union.right);
        gather(&self.literals.chains, moved, literals)?;
        gather(&self.differs.chains, moved, differs)?;
        self.literals.join(moved, kept)?;
        self.differs.join(moved, kept)?;
        Ok(())
    }

    /// Does what is done after each of the unions. A refusal is want of memory or of room, and a part may have been done then.
    fn try_unions(
        &mut self,
        unions: &[Union],
        literals: &mut Vec<u32>,
        differs: &mut Vec<u32>,
    ) -> Result<(), AllocError>
        requires { (world : World) × IsWatched world [] self.old × AreLed world unions.now }
        ensures watched { OnOk result ((world : World) → IsWatched world [] self.old → AreLed world unions.now → IsWatched world unions.now self.new) }
        ensures looks { OnOk result ((world : World) → IsWatched world [] self.old → AreLed world unions.now → LooksAtUnions world unions.now (length unions.now) literals.new.items differs.new.items) }
        ensures literals_below { OnOk result ((count : ℕ) → ItemsBelow count self.old.literals.chains → All (λ item. item < count) literals.old.items → All (λ item. item < count) literals.new.items) }
        ensures differs_below { OnOk result ((count : ℕ) → ItemsBelow count self.old.differs.chains → All (λ item. item < count) differs.old.items → All (λ item. item < count) differs.new.items) }
        ensures items { OnOk result (KeepsItems self.old self.new) }
        ensures back { CanGoBack self.old self.new }
    {
        for k in 0..unions.len() {
            self.after_union(unions, k, literals, differs)?;
        }
        Ok(())
    }

    /// Puts the literals and the differences with an end in a class that moves at one of the unions behind what was found,
    /// and joins the chains. A refusal is want of memory or of room, and the watch is as before then.
    pub fn after_unions(
        &mut self,
        unions: &[Union],
        literals: &mut Vec<u32>,
        differs: &mut Vec<u32>,
    ) -> Result<(), AllocError>
        requires { (world : World) × IsWatched world [] self.old × AreLed world unions.now }
        ensures watched { OnOk result ((world : World) → IsWatched world [] self.old → AreLed world unions.now → IsWatched world unions.now self.new) }
        ensures looks { OnOk result ((world : World) → IsWatched world [] self.old → AreLed world unions.now → LooksAtUnions world unions.now (length unions.now) literals.new.items differs.new.items) }
        ensures literals_below { OnOk result ((count : ℕ) → ItemsBelow count self.old.literals.chains → All (λ item. item < count) literals.old.items → All (λ item. item < count) literals.new.items) }
        ensures differs_below { OnOk result ((count : ℕ) → ItemsBelow count self.old.differs.chains → All (λ item. item < count) differs.old.items → All (λ item. item < count) differs.new.items) }
        ensures items { OnOk result (KeepsItems self.old self.new) }
        ensures err { OnErr result (self.new ≡ self.old) }
        ensures back { CanGoBack self.old self.new }
    {
        let mark = self.mark();
        match self.try_unions(unions, literals, differs) {
            Ok(()) => Ok(()),
            Err(fault) => {
                self.back_to(mark);
                Err(fault)
            }
        }
    }

    /// Puts a difference last in the chains of two leaders. A refusal is want of memory or of room, and a part may have
    /// been done then.
    fn try_difference(&mut self, d: u32, left: u32, right: u32) -> Result<(), AllocError>
        requires left { HasChain self.old.differs.chains left }
        requires right { HasChain self.old.differs.chains right }
        ensures differs { OnOk result (self.new.differs.chains ≡ with_both self.old.differs.chains left right d) }
        ensures literals { self.new.literals ≡ self.old.literals }
        ensures back { CanGoBack self.old self.new }
    {
        self.differs.put(left, d)?;
        self.differs.put(right, d)
    }

    /// Puts one more difference last in the chains of the leaders of its two ends. A refusal is want of memory or of room,
    /// and the watch is as before then.
    pub fn add_difference(&mut self, d: u32, left: u32, right: u32) -> Result<(), AllocError>
        requires left { HasChain self.old.differs.chains left }
        requires right { HasChain self.old.differs.chains right }
        ensures differs { OnOk result (self.new.differs.chains ≡ with_both self.old.differs.chains left right d) }
        ensures literals { self.new.literals ≡ self.old.literals }
        ensures watched { OnOk result ((world : World) (unions : List UnionOf) (a b : ℕ) → IsWatched world unions self.old → LeadsTerm world unions left a → LeadsTerm world unions right b → IsWatched (with_difference world d a b) unions self.new) }
        ensures items { OnOk result ((count : ℕ) → d < count → ItemsBelow count self.old.differs.chains → ItemsBelow count self.new.differs.chains) }
        ensures err { OnErr result (self.new ≡ self.old) }
        ensures back { CanGoBack self.old self.new }
    {
        let mark = self.mark();
        match self.try_difference(d, left, right) {
            Ok(()) => Ok(()),
            Err(fault) => {
                self.back_to(mark);
                Err(fault)
            }
        }
    }

    /// How many changes were noted, to go back to. It takes no memory.
    pub fn mark(&self) -> Mark
        ensures { IsMark self.now result }
    {
        Mark {
            literals: self.literals.trail.mark(),
            differs: self.differs.trail.mark(),
        }
    }

    /// Goes back to the watch as it was at a mark. It takes no memory.
    pub fn back_to(&mut self, mark: Mark)
        requires { (before : WatchOf) × IsMark before mark × CanGoBack before self.old }
        ensures { (before : WatchOf) → IsMark before mark → CanGoBack before self.old → self.new ≡ before }
    {
        self.literals.back_to(mark.literals);
        self.differs.back_to(mark.differs);
    }
}
