//! A search with the splits whose first halves are under way.
ghost use Rattle.std.specs.Prelude.{◌≡◌, ◌≢◌, ℕ, ◌<◌, ◌++◌, ◌∷◌, [], List, length, take, All, IfOk, IfErr, OnOk, OnErr};
ghost use Rattle.formula_assert.specs.Assertions.{Assertions, held_of};
ghost use Rattle.formula_assert.specs.Exactly.{HoldsExactly};
ghost use Rattle.formula_assert.specs.InLevel.{HoldsMoreOver, KeepsLevels};
ghost use Rattle.search_branch.specs.Right.{AreValuesOf};
ghost use Rattle.search_branch.specs.Steps.{IsStep, branch_of};
ghost use Rattle.search_branch.specs.Struck.{IsPlaceOf};
ghost use Rattle.search_laws.specs.Branch.{live_in};
ghost use Rattle.search_laws.specs.Rounds.{AreNewIn};
ghost use Rattle.search_check.specs.Round.{path_at, CanEnter, LivesAreAsserted};
ghost use Rattle.search_check.specs.Verdicts.{IsOpenWith, IsPastLimit};
ghost use Rattle.search_check.specs.UnderWay.{IsSearching, IsBackAt, GoesOn};

use crate::aside::Aside;
use crate::kept::kept_of;
use crate::live::has_live;
use crate::outcome::Outcome;
use crate::round::enter_all;
use crate::why::Why;
use formula_assert::AssertionStack;
use formula_assert::laws::over_law;
use formula_table::EnterFault;
use graph_terms::Memory;
use match_graph::Matchers;
use match_store::{DoneInstances, Instance, new_instances};
use search_branch::{BranchValues, Step};
use std::alloc::Global;

/// The splits whose first halves are under way, the last of them last, the struck places, each a disjunction and a place
/// of it, the instances that are done, how many each round entered, and the values of all formulas.
#[derive(Drop)]
pub(crate) struct Search {
    asides: Vec<Aside>,
    struck: Vec<(u32, u32)>,
    done: DoneInstances,
    spent: Vec<u32>,
    values: BranchValues,
}

/// Puts a split last.
fn push_aside(asides: &mut Vec<Aside>, aside: Aside) -> Result<(), Memory>
    ensures ok { OnOk result (asides.new.items ≡ asides.old.items ++ aside ∷ []) }
    ensures err { OnErr result (asides.new.items ≡ asides.old.items) }
{
    asides.push(aside)?;
    Ok(())
}

/// Keeps the first so many places, and puts this one last.
fn strike(struck: &mut Vec<(u32, u32)>, count: usize, node: u32, place: u32) -> Result<(), Memory>
    ensures { OnOk result (struck.new.items ≡ take count struck.old.items ++ (node, place) ∷ []) }
{
    struck.truncate(count);
    struck.push((node, place))?;
    Ok(())
}

/// Puts a count last. `Memory` comes also where it is past the greatest number.
fn push_count(spent: &mut Vec<u32>, count: usize) -> Result<(), Memory>
    ensures { OnOk result (spent.new.items ≡ spent.old.items ++ count ∷ []) }
{
    match u32::try_from(count) {
        Ok(count) => {
            spent.push(count)?;
            Ok(())
        }
        Err(_past) => Err(Memory),
    }
}

impl Search {
    /// Nothing is split, and no round is spent.
    pub(crate) fn new(alloc: Global, stack: &AssertionStack) -> Result<Search, Memory>
        requires { HoldsExactly stack.now.formulas (held_of stack.now) }
        ensures { IfOk result (λ search. (rounds : ℕ) → IsSearching rounds stack.now stack.now search) }
    {
        over_law();
        let asides = Vec::new(alloc);
        let struck = Vec::new(alloc);
        let done = DoneInstances::new(alloc);
        let spent = Vec::new(alloc);
        let values = BranchValues::new(alloc, stack, &[])?;
        Ok(Search {
            asides,
            struck,
            done,
            spent,
            values,
        })
    }

    /// Strikes the place of a split that was gone back to, and refutes its part.
    fn refute(
        &mut self,
        alloc: Global,
        stack: &mut AssertionStack,
        aside: Aside,
    ) -> Result<Option<Outcome>, Memory>
        requires { (rounds : ℕ) × (start : Assertions) × IsBackAt rounds start stack.old self.old aside }
        ensures ok { IfOk result (λ outcome. (rounds : ℕ) (start : Assertions) → IsBackAt rounds start stack.old self.old aside → GoesOn rounds start stack.new self.new outcome) }
        ensures more { HoldsMoreOver stack.old stack.new }
    {
        over_law();
        strike(&mut self.struck, aside.struck, aside.node, aside.place)?;
        self.values
            .refute(alloc, stack, aside.node, aside.place, aside.part)?;
        Ok(None)
    }

    /// Takes up the second half of the last split that is under way, in the round that it is of; where there is none, the
    /// search is lost.
    fn take_up(
        &mut self,
        alloc: Global,
        stack: &mut AssertionStack,
    ) -> Result<Option<Outcome>, Memory>
        requires under_way { (rounds : ℕ) × (start : Assertions) × IsSearching rounds start stack.old self.old }
        requires step { IsStep stack.old.formulas (branch_of stack.old self.old.struck.items) Step.Lost }
        ensures ok { IfOk result (λ outcome. (rounds : ℕ) (start : Assertions) → IsSearching rounds start stack.old self.old → GoesOn rounds start stack.new self.new outcome) }
        ensures levels { (rounds : ℕ) (start : Assertions) → IsSearching rounds start stack.old self.old → KeepsLevels start stack.new }
    {
        over_law();
        match self.asides.pop() {
            None => return Ok(Some(Outcome::Unsat)),
            Some(aside) => {
                self.values.close();
                self.done.keep_first(aside.done);
                self.spent.truncate(aside.spent);
                stack.back_to(aside.mark);
                return self.refute(alloc, stack, aside);
            }
        }
    }

    /// Asserts the one part left over.
    fn assert(
        &mut self,
        alloc: Global,
        stack: &mut AssertionStack,
        part: u32,
    ) -> Result<Option<Outcome>, Memory>
        requires stands { part < length stack.old.formulas.nodes }
        requires values { AreValuesOf stack.old self.old.struck.items self.old.values }
        requires step { IsStep stack.old.formulas (branch_of stack.old self.old.struck.items) (Step.Assert part) }
        ensures ok { IfOk result (λ outcome. (rounds : ℕ) (start : Assertions) → IsSearching rounds start stack.old self.old → GoesOn rounds start stack.new self.new outcome) }
        ensures more { HoldsMoreOver stack.old stack.new }
    {
        over_law();
        self.values.assert(alloc, stack, part)?;
        Ok(None)
    }

    /// Splits a disjunction: asserts the part at the place, and keeps the second half.
    fn split(
        &mut self,
        alloc: Global,
        stack: &mut AssertionStack,
        node: u32,
        place: u32,
        part: u32,
    ) -> Result<Option<Outcome>, Memory>
        requires stands { part < length stack.old.formulas.nodes }
        requires values { AreValuesOf stack.old self.old.struck.items self.old.values }
        requires step { IsStep stack.old.formulas (branch_of stack.old self.old.struck.items) (Step.Split node place part) }
        ensures ok { IfOk result (λ outcome. (rounds : ℕ) (start : Assertions) → IsSearching rounds start stack.old self.old → GoesOn rounds start stack.new self.new outcome) }
        ensures more { HoldsMoreOver stack.old stack.new }
    {
        over_law();
        let mark = stack.mark();
        let struck = self.struck.len();
        let done = self.done.len();
        let spent = self.spent.len();
        let aside = Aside {
            node,
            place,
            part,
            mark,
            struck,
            done,
            spent,
        };
        push_aside(&mut self.asides, aside)?;
        self.values.open()?;
        self.values.assert(alloc, stack, part)?;
        Ok(None)
    }

    /// Enters the new instances and asserts them, and goes on in the next round.
    fn round(
        &mut self,
        alloc: Global,
        stack: &mut AssertionStack,
        instances: &[Instance],
    ) -> Result<Option<Outcome>, EnterFault>
        requires step { IsStep stack.old.formulas (branch_of stack.old self.old.struck.items) Step.WayOut }
        requires live { live_in stack.old.formulas (branch_of stack.old self.old.struck.items) ≢ [] }
        requires new { AreNewIn (path_at stack.old self.old.struck.items self.old.done self.old.spent.items) instances.now }
        requires some { instances.now ≢ [] }
        requires places { All (IsPlaceOf stack.old.formulas.nodes) self.old.struck.items }
        requires can_enter { All (CanEnter stack.old) instances.now }
        requires lives { LivesAreAsserted stack.old.formulas (held_of stack.old) }
        requires values { AreValuesOf stack.old self.old.struck.items self.old.values }
        ensures ok { IfOk result (λ outcome. (rounds : ℕ) (start : Assertions) → length self.old.spent.items < rounds → IsSearching rounds start stack.old self.old → GoesOn rounds start stack.new self.new outcome) }
        ensures limit { IfErr result (λ fault. (rounds : ℕ) (start : Assertions) → length self.old.spent.items < rounds → IsSearching rounds start stack.old self.old → IsPastLimit rounds start.formulas (held_of start) fault) }
        ensures levels { KeepsLevels stack.old stack.new }
    {
        over_law();
        enter_all(alloc, stack, &mut self.values, &mut self.done, instances)?;
        push_count(&mut self.spent, instances.len())?;
        Ok(None)
    }

    /// The way out that the stack holds.
    fn way_out(&self, alloc: Global, stack: &AssertionStack) -> Result<Option<Outcome>, Memory>
        requires step { IsStep stack.now.formulas (branch_of stack.now self.now.struck.items) Step.WayOut }
        requires none_live { live_in stack.now.formulas (branch_of stack.now self.now.struck.items) ≡ [] }
        ensures { IfOk result (λ outcome. (rounds : ℕ) (start : Assertions) → IsSearching rounds start stack.now self.now → GoesOn rounds start stack.now self.now outcome) }
    {
        let kept = kept_of(alloc, stack, &self.spent)?;
        Ok(Some(Outcome::Sat { kept }))
    }

    /// The open branch that the stack holds.
    fn ends_open(
        &self,
        alloc: Global,
        stack: &AssertionStack,
        why: Why,
    ) -> Result<Option<Outcome>, Memory>
        ensures { IfOk result (IsOpenWith why (held_of stack.now) self.now.spent.items) }
    {
        let kept = kept_of(alloc, stack, &self.spent)?;
        Ok(Some(Outcome::Unknown { why, kept }))
    }

    /// Where no disjunction is open: the way out, if no forall is live; else the next round, if some instance is new and
    /// a round is left.
    fn nothing_open<M: Matchers>(
        &mut self,
        alloc: Global,
        matchers: &M,
        stack: &mut AssertionStack,
        rounds: u32,
    ) -> Result<Option<Outcome>, EnterFault>
        requires under_way { (start : Assertions) × IsSearching rounds start stack.old self.old }
        requires step { IsStep stack.old.formulas (branch_of stack.old self.old.struck.items) Step.WayOut }
        ensures ok { IfOk result (λ outcome. (start : Assertions) → IsSearching rounds start stack.old self.old → GoesOn rounds start stack.new self.new outcome) }
        ensures limit { IfErr result (λ fault. (start : Assertions) → IsSearching rounds start stack.old self.old → IsPastLimit rounds start.formulas (held_of start) fault) }
        ensures levels { KeepsLevels stack.old stack.new }
    {
        over_law();
        if !has_live(stack) {
            return Ok(self.way_out(alloc, stack)?);
        }
        let _rules = stack.depth();
        let instances = new_instances(alloc, matchers, stack.graph(), &self.done)?;
        if instances.is_empty() {
            return Ok(self.ends_open(alloc, stack, Why::Settled)?);
        }
        if self.spent.len() >= rounds as usize {
            return Ok(self.ends_open(alloc, stack, Why::RoundsSpent)?);
        }
        self.round(alloc, stack, &instances)
    }

    /// Does the next step, and gives the outcome where that was the last.
    pub(crate) fn advance<M: Matchers>(
        &mut self,
        alloc: Global,
        matchers: &M,
        stack: &mut AssertionStack,
        rounds: u32,
    ) -> Result<Option<Outcome>, EnterFault>
        requires { (start : Assertions) × IsSearching rounds start stack.old self.old }
        ensures ok { IfOk result (λ outcome. (start : Assertions) → IsSearching rounds start stack.old self.old → GoesOn rounds start stack.new self.new outcome) }
        ensures limit { IfErr result (λ fault. (start : Assertions) → IsSearching rounds start stack.old self.old → IsPastLimit rounds start.formulas (held_of start) fault) }
        ensures levels { (start : Assertions) → IsSearching rounds start stack.old self.old → KeepsLevels start stack.new }
    {
        over_law();
        match self.values.next_step() {
            Step::Lost => Ok(self.take_up(alloc, stack)?),
            Step::Assert { part } => Ok(self.assert(alloc, stack, part)?),
            Step::Split { node, place, part } => Ok(self.split(alloc, stack, node, place, part)?),
            Step::WayOut => self.nothing_open(alloc, matchers, stack, rounds),
        }
    }
}
