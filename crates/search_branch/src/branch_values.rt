//! The values of all formulas in a branch of the search.
ghost use Rattle.std.specs.Prelude.{◌≡◌, ◌≢◌, ℕ, ◌<◌, ◌≤◌, ◌++◌, ◌∷◌, false, List, [], length, slice_get, Some, All, IfOk, IfErr, OnOk};
ghost use Rattle.formula_table.specs.declared.node.Node.TheVariants.{Or};
ghost use Rattle.formula_value.specs.Holds.{HasNode};
ghost use Rattle.formula_table.specs.declared.node.Node.{Node as SpecNode};
ghost use Rattle.graph_meaning.specs.State.{replay};
ghost use Rattle.formula_assert.specs.Held.{held, refuting_of};
ghost use Rattle.formula_assert.specs.Assertions.{Assertions, held_of};
ghost use Rattle.formula_assert.specs.Asserts.{Asserts};
ghost use Rattle.formula_table.specs.declared.enter_fault.EnterFault.TheVariants.{Memory as NoMemory};
ghost use Rattle.formula_table.specs.Instance.{HasVariables};
ghost use Rattle.formula_assert.specs.AssertInstance.{TermsStand, AssertsInstance, StopsAssertInstance};
ghost use Rattle.formula_assert.specs.InLevel.{HoldsMoreOver, KeepsLevels};
ghost use Rattle.search_branch.specs.Grown.{HasGrown, StandIn};
ghost use Rattle.search_branch.specs.declared.branch_values.BranchValues.{BranchValues as ValuesOf};
ghost use Rattle.search_branch.specs.Right.{AreValuesOf};
ghost use Rattle.search_branch.specs.Levels.{IsLevelOver};
ghost use Rattle.search_branch.specs.Steps.{IsStep, IsWithin, branch_of};
ghost use Rattle.search_branch.specs.Told.{HasCome};
ghost use Rattle.search_branch.specs.Struck.{IsPlaceOf};

use crate::build::{add_literals, enter_nodes, height_of, is_lost, watch_of};
use crate::next::next_of;
use crate::step::Step;
use crate::tell::{set_from, strike_each, tell_all, tell_start};
use formula_assert::AssertionStack;
use formula_assert::laws::{instance_law, over_law};
use formula_table::EnterFault;
use graph_meaning::Union;
use graph_terms::Memory;
use search_values::NodeValues;
use search_watch::laws::{can_go_back_further, terms_law};
use search_watch::{Mark, Watch};
use std::alloc::Global;

/// The values of all formulas by what an assertion stack holds, with levels.
///
/// A forall is known to be true where it is asserted; elsewhere nothing is known of it.
#[derive(Drop)]
pub struct BranchValues {
    /// The value of each formula, and which are units, open and stuck.
    values: NodeValues,
    /// For each class the literals and the differences that its terms end.
    watch: Watch,
    /// What the watch goes back to where a level ends, the innermost level last.
    marks: Vec<Mark>,
    /// Whether two terms that are kept apart are equal; the values are not looked at then.
    lost: bool,
}

impl BranchValues {
    /// The values of all formulas by what the stack holds, where these places of disjunctions are struck; no level is open.
    pub fn new(
        alloc: Global,
        stack: &AssertionStack,
        struck: &[(u32, u32)],
    ) -> Result<BranchValues, Memory>
        requires places { All (IsPlaceOf stack.now.formulas.nodes) struck.now }
        ensures { IfOk result (AreValuesOf stack.now struck.now) }
    {
        let _rules = stack.depth();
        let watch = watch_of(alloc, stack)?;
        let mut values = NodeValues::new(alloc, height_of(stack.formulas().len()))?;
        enter_nodes(alloc, &mut values, stack.formulas(), 0)?;
        tell_start(&mut values, &watch, stack)?;
        strike_each(&mut values, struck)?;
        let lost = is_lost(stack.graph());
        Ok(BranchValues {
            values,
            watch,
            marks: Vec::new(alloc),
            lost,
        })
    }

    /// What the search does next. It costs the reading of a few sets and the places of one disjunction.
    pub fn next_step(&self) -> Step
        ensures step { (now : Assertions) (struck : List (ℕ × ℕ)) → AreValuesOf now struck self.now → IsStep now.formulas (branch_of now struck) result }
        ensures within { (now : Assertions) (struck : List (ℕ × ℕ)) → AreValuesOf now struck self.now → IsWithin (length now.formulas.nodes) result }
    {
        if self.lost {
            return Step::Lost;
        }
        next_of(&self.values)
    }

    /// Opens a level. Without memory all is as before.
    pub fn open(&mut self) -> Result<(), Memory>
        ensures over { OnOk result (IsLevelOver self.old self.new) }
        ensures values { OnOk result ((now : Assertions) (struck : List (ℕ × ℕ)) → AreValuesOf now struck self.old → AreValuesOf now struck self.new) }
    {
        can_go_back_further();
        let _nodes = self.values.len();
        let mark = self.watch.mark();
        self.marks.reserve(1)?;
        self.values.push()?;
        self.marks.push_reserved(mark);
        Ok(())
    }

    /// Ends the innermost level: the values are those that were there when it was opened. It takes no memory.
    pub fn close(&mut self)
        requires { (before : ValuesOf) × IsLevelOver before self.old }
        ensures values { (before : ValuesOf) → IsLevelOver before self.old → before.lost ≡ false → (now : Assertions) (struck : List (ℕ × ℕ)) → AreValuesOf now struck before → AreValuesOf now struck self.new }
        ensures levels { (before outer : ValuesOf) → IsLevelOver before self.old → IsLevelOver outer before → IsLevelOver outer self.new }
    {
        if let Some(mark) = self.marks.pop() {
            self.values.pop();
            self.watch.back_to(mark);
            self.lost = false;
        }
    }

    /// Follows the stack over these unions, and over the differences and the asserted nodes behind so many.
    fn follow(
        &mut self,
        alloc: Global,
        stack: &AssertionStack,
        unions: &[Union],
        asserted: usize,
        differs: usize,
    ) -> Result<(), Memory>
        requires calm { self.old.lost ≡ false }
        requires within { asserted ≤ length stack.now.asserted }
        requires come { (was : Assertions) × (struck : List (ℕ × ℕ)) × HasCome was stack.now unions.now asserted differs × AreValuesOf was struck self.old }
        ensures values { OnOk result ((was : Assertions) (struck : List (ℕ × ℕ)) → HasCome was stack.now unions.now asserted differs → AreValuesOf was struck self.old → AreValuesOf stack.now struck self.new) }
        ensures parts { OnOk result (self.new.values.parts ≡ self.old.values.parts) }
        ensures level { OnOk result ((before : ValuesOf) → IsLevelOver before self.old → IsLevelOver before self.new) }
    {
        let _rules = stack.depth();
        can_go_back_further();
        let graph = stack.graph();
        let mut found = Vec::new(alloc);
        let clash = self
            .watch
            .follow(graph, unions, graph.differences(), differs, &mut found)?;
        self.lost = clash;
        if clash {
            return Ok(());
        }
        tell_all(&mut self.values, &self.watch, stack, asserted, &found)?;
        Ok(())
    }

    /// Asserts a formula in the stack, with all that it stands for. There may be no clash. After want of memory the values
    /// are those of nothing, and in the stack a part may stand, which goes where a mark is gone back to.
    pub fn assert(
        &mut self,
        alloc: Global,
        stack: &mut AssertionStack,
        part: u32,
    ) -> Result<(), Memory>
        requires stands { part < length stack.old.formulas.nodes }
        requires calm { self.old.lost ≡ false }
        requires values { (struck : List (ℕ × ℕ)) × AreValuesOf stack.old struck self.old }
        ensures asserts { OnOk result (Asserts stack.old.formulas part (held_of stack.old) (held_of stack.new)) }
        ensures more { HoldsMoreOver stack.old stack.new }
        ensures values { OnOk result ((struck : List (ℕ × ℕ)) → AreValuesOf stack.old struck self.old → AreValuesOf stack.new struck self.new) }
        ensures level { OnOk result ((before : ValuesOf) → IsLevelOver before self.old → IsLevelOver before self.new) }
    {
        let asserted = stack.asserted().len();
        let differs = stack.graph().differences().len();
        let mut unions = Vec::new(alloc);
        stack.assert_entered(part, &mut unions)?;
        self.follow(alloc, stack, &unions, asserted, differs)
    }

    /// Strikes a place of a disjunction, and refutes its part in the stack. There may be no clash. After want of memory the
    /// values are those of nothing.
    pub fn refute(
        &mut self,
        alloc: Global,
        stack: &mut AssertionStack,
        node: u32,
        place: u32,
        part: u32,
    ) -> Result<(), Memory>
        requires place { (parts : List ℕ) × HasNode stack.old.formulas.nodes node (Or parts) × (slice_get parts place ≡ Some part) }
        requires calm { self.old.lost ≡ false }
        requires values { (struck : List (ℕ × ℕ)) × AreValuesOf stack.old struck self.old }
        ensures refutes { OnOk result ((literal : SpecNode) → HasNode stack.old.formulas.nodes part literal → held_of stack.new ≡ held (replay stack.old.graph (refuting_of literal)) stack.old.asserted) }
        ensures more { HoldsMoreOver stack.old stack.new }
        ensures values { OnOk result ((struck : List (ℕ × ℕ)) → AreValuesOf stack.old struck self.old → AreValuesOf stack.new (struck ++ (node, place) ∷ []) self.new) }
        ensures level { OnOk result ((before : ValuesOf) → IsLevelOver before self.old → IsLevelOver before self.new) }
    {
        let asserted = stack.asserted().len();
        let differs = stack.graph().differences().len();
        let mut unions = Vec::new(alloc);
        stack.refute(part, &mut unions)?;
        self.follow(alloc, stack, &unions, asserted, differs)?;
        self.values.strike(node, place)?;
        Ok(())
    }

    /// Follows the stack over terms that came, and over the formulas from this one on. There may be no clash.
    fn grow(&mut self, alloc: Global, stack: &AssertionStack, first: u32) -> Result<(), Memory>
        requires calm { self.old.lost ≡ false }
        requires first { first ≤ length stack.now.formulas.nodes }
        requires grown { (was : Assertions) × (struck : List (ℕ × ℕ)) × HasGrown was stack.now first × AreValuesOf was struck self.old }
        ensures calm { OnOk result (self.new.lost ≡ false) }
        ensures values { OnOk result ((was : Assertions) (struck : List (ℕ × ℕ)) → HasGrown was stack.now first → StandIn was struck → AreValuesOf was struck self.old → AreValuesOf stack.now struck self.new) }
        ensures level { OnOk result ((before : ValuesOf) → IsLevelOver before self.old → IsLevelOver before self.new) }
    {
        let _rules = stack.depth();
        can_go_back_further();
        terms_law();
        self.watch.follow_terms(alloc, stack.graph())?;
        add_literals(&mut self.watch, stack, first)?;
        enter_nodes(alloc, &mut self.values, stack.formulas(), first)?;
        set_from(&mut self.values, &self.watch, stack, first)?;
        Ok(())
    }

    /// Enters the body of a forall over a tuple of terms, one for each of its variables, and then asserts the root in the
    /// stack. The refusals are those of the stack's own call. After one the values are those of nothing; after want of
    /// memory a part may stand in the stack, which goes where a mark is gone back to.
    pub fn assert_instance(
        &mut self,
        alloc: Global,
        stack: &mut AssertionStack,
        forall: u32,
        tuple: &[u32],
    ) -> Result<(), EnterFault>
        requires variables { HasVariables stack.old.formulas forall (length tuple.now) }
        requires tuple { TermsStand stack.old tuple.now }
        requires values { (struck : List (ℕ × ℕ)) × StandIn stack.old struck × AreValuesOf stack.old struck self.old }
        ensures ok { OnOk result (AssertsInstance forall tuple.now stack.old stack.new) }
        ensures fault { IfErr result (λ fault. fault ≢ NoMemory → StopsAssertInstance forall tuple.now stack.old stack.new fault) }
        ensures levels { KeepsLevels stack.old stack.new }
        ensures values { OnOk result ((struck : List (ℕ × ℕ)) → StandIn stack.old struck → AreValuesOf stack.old struck self.old → AreValuesOf stack.new struck self.new) }
        ensures level { OnOk result ((before : ValuesOf) → IsLevelOver before self.old → IsLevelOver before self.new) }
    {
        over_law();
        instance_law();
        terms_law();
        let _rules = stack.depth();
        if self.lost {
            stack.assert_instance(forall, tuple)?;
            let _rules_after = stack.depth();
            return Ok(());
        }
        let first = stack.formulas().len();
        let root = stack.enter_instance(forall, tuple)?;
        let _rules_entered = stack.depth();
        self.grow(alloc, stack, first)?;
        self.assert(alloc, stack, root)?;
        Ok(())
    }
}
