//! Owed claims.
ghost use Rattle.std.specs.Prelude.{◌≡◌, true, false, ◌<◌, ◌≤◌, ◌-◌, [], ℕ, List, length, take, slice_get, get_or, Some, None, Contains, IsTrue, IsSome, IfSome, IfOk, OnOk, OnErr};
ghost use Rattle.graph_trigger.specs.declared.trigger.Trigger.{Trigger as SpecTrigger};
ghost use Rattle.graph_meaning.specs.Standing.{terms_of, triggers_of};
ghost use Rattle.match_paths.specs.Paths.{IsThrough, Serves as ServesPaths};
ghost use Rattle.match_owed.specs.Due.{IsDueStart, IsDueTerm, IsDueTrigger, IsOfEntries, IsOfTerms};
ghost use Rattle.match_owed.specs.Giving.{GivesAll, GivesSome, HasCome};
ghost use Rattle.match_owed.specs.Items.{AreItems, HasEntries, TakesBatch};
ghost use Rattle.match_owed.specs.OwedLog.{earlier_mark, no_work, IsBusy, IsIdle, popped, pushed, CountsOwed, GivesBack, SameButLog, TakesOff};
ghost use Rattle.match_owed.specs.Starts.{Serves};

use crate::batching::{asked_in_order, joined};
use crate::claim_list::ClaimList;
use crate::claim_log::ClaimLog;
use crate::root_symbol::root_symbol;
use crate::starts::Starts;
use graph_meaning::{Claim, ClassGraph, Union};
use graph_terms::Memory;
use match_forest::CodeForest;
use match_machine::Batch;
use match_paths::{Claims, PathIndex};
use std::alloc::Global;
use std::marker::Model;

/// The claims whose matching is due, over open levels.
#[derive(Drop)]
pub struct Owed {
    alloc: Global,
    /// What happened to claims, in order.
    log: ClaimLog,
    /// For each open level, how long the log was at its push.
    levels: Vec<usize>,
    /// How long the log was where the last operation began.
    begun: Option<usize>,
    /// How long the log was where the batch that is out was taken.
    batch: Option<usize>,
    /// The claims of each item of that batch.
    items: Vec<ClaimList>,
}

impl Model for Owed {
    ghost use Rattle.match_owed.specs.OwedLog.{OwedLog};
    ghost use Rattle.match_owed.specs.OwedInside.{owed_of, IsSound};

    ghost Value = { OwedLog };

    ghost view = { owed_of };

    ghost invariant = { IsSound };
}

/// The mark, or the other where that is earlier.
fn earlier_of(taken: Option<usize>, mark: usize) -> Option<usize>
    ensures { result ≡ earlier_mark taken mark }
{
    match taken {
        Some(taken) => Some(taken.min(mark)),
        None => None,
    }
}

/// The number at the place.
fn number_at(numbers: &[u32], at: usize) -> u32
    requires { at < length numbers.now }
    ensures { slice_get numbers.now at ≡ Some result }
{
    numbers[at]
}

/// Takes a claim off, unless it came anew since the mark.
fn discharge_claim(log: &mut ClaimLog, mark: usize, claim: Claim)
    ensures { TakesOff mark (λ other. other ≡ claim) log.old log.new }
{
    if let Some(place) = log.gift(claim) {
        if place < mark {
            log.discharge(claim);
        }
    }
}

/// Takes each of the claims off, unless it came anew since the mark.
fn discharge_claims(log: &mut ClaimLog, mark: usize, claims: &ClaimList)
    ensures { TakesOff mark (λ claim. Contains claims.now claim) log.old log.new }
{
    for i in 0..claims.len() {
        discharge_claim(log, mark, claims.at(i));
    }
}

/// The list at the place.
fn list_at(lists: &[ClaimList], at: usize) -> &ClaimList
    requires { at < length lists.now }
    ensures { slice_get lists.now at ≡ Some result.now }
{
    &lists[at]
}

/// Takes each claim of the list at the place off, unless it came anew since the mark.
fn discharge_list(log: &mut ClaimLog, mark: usize, lists: &[ClaimList], at: usize)
    requires { at < length lists.now }
    ensures { TakesOff mark (λ claim. Contains (get_or lists.now at []) claim) log.old log.new }
{
    discharge_claims(log, mark, list_at(lists, at));
}

impl Owed {
    /// No claims.
    pub fn new(alloc: Global) -> Owed
        ensures { result ≡ no_work }
    {
        Owed {
            alloc,
            log: ClaimLog::new(alloc),
            levels: Vec::new(alloc),
            begun: None,
            batch: None,
            items: Vec::new(alloc),
        }
    }

    /// How many claims are owed.
    pub fn len(&self) -> usize
        ensures { CountsOwed self.now.log result }
    {
        self.log.owed()
    }

    /// Marks the start of an operation. Takes no memory.
    pub fn begin(&mut self)
        ensures { self.new ≡ record self.old { begun = Some (length self.old.log) } }
    {
        self.begun = Some(self.log.len());
    }

    /// Takes back what was given since an operation began. Takes no memory.
    pub fn take_back(&mut self)
        requires { IsSome self.old.begun }
        ensures { IfSome self.old.begun (λ mark. self.new ≡ record self.old { log = take mark self.old.log }) }
    {
        if let Some(mark) = self.begun {
            self.log.cut(mark);
        }
    }

    /// How long the log is. Takes no memory.
    pub fn mark(&self) -> usize
        ensures { result ≡ length self.now.log }
    {
        let _levels = &self.levels;
        self.log.len()
    }

    /// Takes back what happened to claims since the log was so long. Takes no memory. The caller sees that no level was
    /// opened since then, and that no batch is out.
    pub fn back_to(&mut self, mark: usize)
        requires within { mark ≤ length self.old.log }
        requires levels { (k opened : ℕ) → slice_get self.old.levels k ≡ Some opened → opened ≤ mark }
        requires free { self.old.batch ≡ None }
        ensures { self.new ≡ record self.old { log = take mark self.old.log; begun = None } }
    {
        self.begun = None;
        self.log.cut(mark);
    }

    /// Opens a level. `Memory` comes where memory is refused; all is then as before.
    pub fn push(&mut self) -> Result<(), Memory>
        ensures ok { OnOk result (self.new ≡ pushed self.old) }
        ensures err { OnErr result (self.new ≡ self.old) }
    {
        self.levels.push(self.log.len())?;
        self.begun = None;
        Ok(())
    }

    /// Closes the last level: what was owed at its push is owed again, and nothing else. Takes no memory.
    pub fn pop(&mut self)
        requires { 0 < length self.old.levels }
        ensures { (mark : ℕ) → slice_get self.old.levels (length self.old.levels - 1) ≡ Some mark → self.new ≡ popped self.old mark }
    {
        let last = self.levels.len() - 1;
        let mark = self.levels[last];
        self.levels.truncate(last);
        self.log.cut(mark);
        self.begun = None;
        self.batch = earlier_of(self.batch, mark);
    }

    /// Whether a claim is owed, and came anew where a batch is out.
    fn has_come(&self, claim: Claim) -> bool
        ensures { result ≡ true → HasCome self.now claim }
    {
        match self.log.gift(claim) {
            Some(place) => match self.batch {
                Some(mark) => mark <= place,
                None => true,
            },
            None => false,
        }
    }

    /// Gives a claim, unless it is owed and came anew already.
    fn give(&mut self, claim: Claim) -> Result<(), Memory>
        ensures ok { OnOk result (GivesAll (λ other. other ≡ claim) self.old self.new) }
        ensures err { OnErr result (self.new ≡ self.old) }
    {
        if self.has_come(claim) {
            return Ok(());
        }
        self.log.give(claim)?;
        Ok(())
    }

    /// Gives each of the claims.
    fn give_claims(&mut self, claims: &Claims) -> Result<(), Memory>
        ensures ok { OnOk result (GivesAll (λ claim. Contains claims.now claim) self.old self.new) }
        ensures some { GivesSome (λ claim. Contains claims.now claim) self.old self.new }
    {
        for i in 0..claims.len() {
            self.give(claims.at(i))?;
        }
        Ok(())
    }

    /// Gives the claims of a term: at each pattern of the live triggers that has the term's symbol. `Memory` comes where
    /// memory is refused; some of the claims are then given.
    pub fn on_add<G: ClassGraph>(
        &mut self,
        starts: &Starts,
        graph: &G,
        term: u32,
    ) -> Result<(), Memory>
        requires { term < length (terms_of (G.standing graph.now)) }
        ensures ok { OnOk result (Serves starts.now (triggers_of (G.standing graph.now)) → GivesAll (IsDueTerm (G.standing graph.now) term) self.old self.new) }
        ensures some { Serves starts.now (triggers_of (G.standing graph.now)) → GivesSome (IsDueTerm (G.standing graph.now) term) self.old self.new }
    {
        let numbers = starts.with_symbol(graph.row(term).symbol);
        self.give_entries(starts, numbers, term)?;
        Ok(())
    }

    /// Gives the claims of the entries with these numbers, at a term.
    fn give_entries(&mut self, starts: &Starts, numbers: &[u32], term: u32) -> Result<(), Memory>
        requires { (number : ℕ) → Contains numbers.now number → (symbol : ℕ) × (slice_get starts.now.list.ends number ≡ Some symbol) }
        ensures ok { OnOk result (GivesAll (IsOfEntries starts.now numbers.now term) self.old self.new) }
        ensures some { GivesSome (IsOfEntries starts.now numbers.now term) self.old self.new }
    {
        for i in 0..numbers.len() {
            let entry = starts.entry(number_at(numbers, i));
            self.give(Claim {
                trigger: entry.trigger,
                start: entry.start,
                root: term,
            })?;
        }
        Ok(())
    }

    /// Gives the claims of a live trigger: at each of its patterns, each term with the pattern's symbol. `Memory` comes where
    /// memory is refused; some of the claims are then given.
    pub fn on_live<G: ClassGraph>(&mut self, graph: &G, trigger: u32) -> Result<(), Memory>
        requires { trigger < length (triggers_of (G.standing graph.now)) }
        ensures ok { OnOk result (GivesAll (IsDueTrigger (G.standing graph.now) trigger) self.old self.new) }
        ensures some { GivesSome (IsDueTrigger (G.standing graph.now) trigger) self.old self.new }
    {
        for start in 0..graph.trigger(trigger).roots.len() {
            self.give_start(graph, trigger, start)?;
        }
        Ok(())
    }

    /// Gives the claims of one pattern of a live trigger.
    fn give_start<G: ClassGraph>(
        &mut self,
        graph: &G,
        trigger: u32,
        start: u32,
    ) -> Result<(), Memory>
        requires { trigger < length (triggers_of (G.standing graph.now)) }
        ensures ok { OnOk result (GivesAll (IsDueStart (G.standing graph.now) trigger start) self.old self.new) }
        ensures some { GivesSome (IsDueStart (G.standing graph.now) trigger start) self.old self.new }
    {
        match root_symbol(graph.trigger(trigger), start) {
            Some(symbol) => {
                self.give_terms(graph, trigger, start, symbol)?;
                Ok(())
            }
            None => Ok(()),
        }
    }

    /// Gives a claim of the pattern for each term with the symbol.
    fn give_terms<G: ClassGraph>(
        &mut self,
        graph: &G,
        trigger: u32,
        start: u32,
        symbol: u32,
    ) -> Result<(), Memory>
        ensures ok { OnOk result (GivesAll (IsOfTerms (G.standing graph.now) trigger start symbol) self.old self.new) }
        ensures some { GivesSome (IsOfTerms (G.standing graph.now) trigger start symbol) self.old self.new }
    {
        for k in 0..u32::MAX {
            match graph.with_symbol(symbol, k) {
                Some(root) => self.give(Claim {
                    trigger,
                    start,
                    root,
                })?,
                None => return Ok(()),
            }
        }
        Err(Memory)
    }

    /// Gives the claims of the index's triggers that may have a new match through the class of the union. It is to be asked in
    /// the graph after all unions of an operation. `Memory` comes where memory is refused; some of the claims are then given.
    pub fn on_union<G: ClassGraph>(
        &mut self,
        index: &PathIndex,
        graph: &G,
        joined: &Union,
    ) -> Result<(), Memory>
        requires { joined.now.left < length (terms_of (G.standing graph.now)) }
        ensures ok { OnOk result ((triggers : List SpecTrigger) → ServesPaths index.now triggers → GivesAll (IsThrough (G.standing graph.now) triggers joined.now.left) self.old self.new) }
        ensures some { (triggers : List SpecTrigger) → ServesPaths index.now triggers → GivesSome (IsThrough (G.standing graph.now) triggers joined.now.left) self.old self.new }
    {
        let claims = index.owed_by(joined, graph)?;
        self.give_claims(&claims)?;
        Ok(())
    }

    /// Takes all claims that are owed as items of a batch, by tree and then by root, and notes where it was taken. They stay
    /// owed until they are discharged. The caller sees that no batch is out, and that the forest has the triggers of the
    /// claims. `Memory` comes where memory is refused; all is then as before.
    pub fn take_batch(&mut self, forest: &CodeForest) -> Result<Batch, Memory>
        requires free { self.old.batch ≡ None }
        requires entries { HasEntries forest.now self.old.log }
        ensures items { IfOk result (λ items. AreItems forest.now self.old.log items) }
        ensures taken { IfOk result (λ items. TakesBatch forest.now self.old self.new items) }
        ensures err { OnErr result (self.new ≡ self.old) }
    {
        let claims = self.log.claims()?;
        let asked = asked_in_order(self.alloc, forest, &claims)?;
        let mut lists = Vec::new(self.alloc);
        let batch = joined(self.alloc, forest, &asked, &mut lists)?;
        self.begun = None;
        self.batch = Some(self.log.len());
        self.items = lists;
        Ok(batch)
    }

    /// Takes the claims of an item of the batch off, but those that came anew since the batch was taken. Takes no memory. The
    /// caller sees that a batch is out, and has an item with the number.
    pub fn discharge(&mut self, number: u32)
        requires batch { IsSome self.old.batch }
        requires number { number < length self.old.items }
        ensures log { IfSome self.old.batch (λ mark. TakesOff mark (λ claim. Contains (get_or self.old.items number []) claim) self.old.log self.new.log) }
        ensures rest { SameButLog self.old self.new }
    {
        if let Some(mark) = self.batch {
            discharge_list(&mut self.log, mark, &self.items, number as usize);
        }
    }

    /// Ends the batch. Where no level is open and nothing is owed, the log is cleared. Takes no memory. The caller sees that a
    /// batch is out.
    pub fn give_back(&mut self)
        requires { IsSome self.old.batch }
        ensures { GivesBack self.old self.new }
    {
        let idle = self.is_idle();
        self.begun = None;
        self.batch = None;
        self.items.clear();
        if idle {
            self.log.cut(0);
        }
    }

    /// Whether no level is open and nothing is owed.
    fn is_idle(&self) -> bool
        ensures yes { result ≡ true → IsIdle self.now }
        ensures no { result ≡ false → IsBusy self.now }
    {
        if self.levels.len() > 0 {
            return false;
        }
        self.log.owed() == 0
    }
}
