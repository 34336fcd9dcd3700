//! The standing assertions.
ghost use Rattle.std.specs.Prelude.{◌≡◌, ◌<◌, ◌≤◌, ◌++◌, ◌∷◌, [], ℕ, List, length, slice_get, Some, Contains, ◌↔◌, IsTrue, IfOk, IfErr, OnOk, OnErr};
ghost use Rattle.formula_assert.specs.Assertions.{Assertions, held_of, no_assertions, pushed, popped};
ghost use Rattle.formula_assert.specs.AssertFormula.{AssertsFormula, StopsAssert};
ghost use Rattle.formula_assert.specs.AssertInstance.{TermsStand, EntersBody, AssertsInstance, StopsAssertInstance};
ghost use Rattle.formula_table.specs.Instance.{HasVariables};
ghost use Rattle.formula_table.specs.declared.node.Node.{Node as SpecNode};
ghost use Rattle.graph_meaning.specs.State.{replay};
ghost use Rattle.graph_meaning.specs.Standing.{terms_of, differs_of};
ghost use Rattle.formula_assert.specs.Held.{held, refuting_of};
ghost use Rattle.formula_assert.specs.Asserts.{Asserts};
ghost use Rattle.formula_assert.specs.InLevel.{KeepsLevels, HoldsMoreOver};
ghost use Rattle.formula_assert.specs.Mark.{IsMark};
ghost use Rattle.formula_assert.specs.Stands.{AreAssertions};
ghost use Rattle.formula_assert.specs.News.{ListsMore};

use crate::assert_nodes::{assert_node, refute_node};
use crate::asserted_nodes::AssertedNodes;
use crate::assertion_graph::AssertionGraph;
use crate::laws::{instance_law, over_law};
use crate::level::Level;
use crate::mark::Mark;
use crate::take_back::take_back_to;
use formula_draft::Formula;
use formula_table::{EnterFault, FormulaTable};
use graph_meaning::{ClassGraph, Union};
use graph_terms::Memory;
use match_graph::MatchingGraph;
use std::alloc::Global;
use std::marker::Model;

/// The most levels that a count of levels can tell.
const MOST_LEVELS: usize = 4_294_967_295;

/// A graph of terms, the table of formulas, the asserted nodes, and the levels that are open.
#[derive(Drop)]
pub struct AssertionStack {
    alloc: Global,
    graph: MatchingGraph,
    formulas: FormulaTable,
    asserted: AssertedNodes,
    levels: Vec<Level>,
}

impl Model for AssertionStack {
    ghost use Rattle.formula_assert.specs.Assertions.{Assertions};

    ghost Value = { Assertions };

    ghost use Rattle.formula_assert.specs.StackInside.{assertions_of, IsStack};

    ghost view = { assertions_of };

    ghost invariant = { IsStack };
}

impl AssertionStack {
    /// Nothing is asserted. There may be so many terms, at least 2, and so many nodes.
    pub fn new(alloc: Global, terms: u32, nodes: u32) -> Result<AssertionStack, Memory>
        requires { 2 ≤ terms }
        ensures { IfOk result (λ stack. stack ≡ no_assertions terms nodes) }
    {
        let graph = MatchingGraph::new(alloc, terms)?;
        let formulas = FormulaTable::new(alloc, nodes)?;
        Ok(AssertionStack {
            alloc,
            graph,
            formulas,
            asserted: AssertedNodes::new(alloc),
            levels: Vec::new(alloc),
        })
    }

    /// How many levels are open.
    pub fn depth(&self) -> u32
        ensures value { result ≡ length self.now.saved }
        ensures rules { AreAssertions self.now }
    {
        let _nodes = self.formulas.len();
        let _terms = self.graph.len();
        self.levels.len() as u32
    }

    /// The graph of the terms.
    pub fn graph(&self) -> &MatchingGraph
        ensures { result.now ≡ self.now.graph }
    {
        &self.graph
    }

    /// The table of the formulas.
    pub fn formulas(&self) -> &FormulaTable
        ensures { result.now ≡ self.now.formulas }
    {
        &self.formulas
    }

    /// Enters the formula and then asserts its root.
    ///
    /// `TermsFull` comes exactly where the next term is new and as many stand as may, and `NodesFull` where all terms stand,
    /// the next node is new and as many stand as may. After a refusal, `Memory` too, the formulas and what is asserted are as
    /// before, and of the terms the first that were to come may stand. Whatever is answered, the levels are as before, and
    /// what came goes with the level that is open.
    pub fn assert(&mut self, formula: &Formula) -> Result<(), EnterFault>
        ensures ok { OnOk result (AssertsFormula formula.now self.old self.new) }
        ensures fault { IfErr result (StopsAssert formula.now self.old self.new) }
        ensures levels { KeepsLevels self.old self.new }
    {
        let _formula = formula.root();
        let nodes = self.formulas.len();
        let foralls = self.formulas.foralls();
        let asserted = self.asserted.len();
        let root = self.formulas.enter(&mut self.graph, formula)?;
        let version = self.graph.version();
        let mut unions = Vec::new(self.alloc);
        match assert_node(
            self.alloc,
            &mut self.graph,
            &self.formulas,
            &mut self.asserted,
            root,
            &mut unions,
        ) {
            Ok(()) => Ok(()),
            Err(_memory) => {
                take_back_to(&mut self.graph, version);
                self.formulas.cut(nodes, foralls);
                self.asserted.keep_first(asserted);
                Err(EnterFault::Memory)
            }
        }
    }

    /// Enters the body of a forall over a tuple of terms, one for each of its variables, and asserts nothing. Gives the
    /// number of the root.
    ///
    /// `TermsFull` comes exactly where the next term is new and as many stand as may, and `NodesFull` where all terms stand,
    /// the next node is new and as many stand as may. After a refusal, `Memory` too, the formulas and what is asserted are as
    /// before, and of the terms the first that were to come may stand. Whatever is answered, the levels are as before, and
    /// what came goes with the level that is open.
    pub fn enter_instance(&mut self, forall: u32, tuple: &[u32]) -> Result<u32, EnterFault>
        requires variables { HasVariables self.old.formulas forall (length tuple.now) }
        requires tuple { TermsStand self.old tuple.now }
        ensures ok { IfOk result (EntersBody forall tuple.now self.old self.new) }
        ensures root { IfOk result (λ root. root < length self.new.formulas.nodes) }
        ensures fault { IfErr result (StopsAssertInstance forall tuple.now self.old self.new) }
        ensures levels { KeepsLevels self.old self.new }
    {
        let _mark = self.mark();
        let root = self.formulas.instance(&mut self.graph, forall, tuple)?;
        Ok(root)
    }

    /// Enters the body of a forall over a tuple of terms, one for each of its variables, and then asserts the root.
    ///
    /// `TermsFull` comes exactly where the next term is new and as many stand as may, and `NodesFull` where all terms stand,
    /// the next node is new and as many stand as may. After a refusal, `Memory` too, the formulas and what is asserted are as
    /// before, and of the terms the first that were to come may stand. Whatever is answered, the levels are as before, and
    /// what came goes with the level that is open.
    pub fn assert_instance(&mut self, forall: u32, tuple: &[u32]) -> Result<(), EnterFault>
        requires variables { HasVariables self.old.formulas forall (length tuple.now) }
        requires tuple { TermsStand self.old tuple.now }
        ensures ok { OnOk result (AssertsInstance forall tuple.now self.old self.new) }
        ensures fault { IfErr result (StopsAssertInstance forall tuple.now self.old self.new) }
        ensures levels { KeepsLevels self.old self.new }
    {
        over_law();
        instance_law();
        let mark = self.mark();
        let root = self.enter_instance(forall, tuple)?;
        let mut unions = Vec::new(self.alloc);
        match self.assert_entered(root, &mut unions) {
            Ok(()) => Ok(()),
            Err(_memory) => {
                self.back_to(mark);
                return Err(EnterFault::Memory);
            }
        }
    }

    /// Whether the node is asserted.
    pub fn is_asserted(&self, n: u32) -> bool
        ensures { IsTrue result ↔ Contains self.now.asserted n }
    {
        self.asserted.has(n)
    }

    /// The asserted nodes, in the order in which they were asserted.
    pub fn asserted(&self) -> &[u32]
        ensures { result.now ≡ self.now.asserted }
    {
        self.asserted.as_slice()
    }

    /// Asserts a node that was entered, with all that it stands for, and puts the unions that come of it last. After want of
    /// memory a part of it may stand, which goes where a mark is gone back to.
    pub fn assert_entered(&mut self, n: u32, unions: &mut Vec<Union>) -> Result<(), Memory>
        requires { n < length self.old.formulas.nodes }
        ensures ok { OnOk result (Asserts self.old.formulas n (held_of self.old) (held_of self.new)) }
        ensures unions { OnOk result (ListsMore self.old.graph.standing self.new.graph.standing unions.old.items unions.new.items) }
        ensures terms { OnOk result (terms_of self.new.graph.standing ≡ terms_of self.old.graph.standing) }
        ensures differs { OnOk result ((more : List (ℕ × ℕ)) × (differs_of self.new.graph.standing ≡ differs_of self.old.graph.standing ++ more)) }
        ensures more { HoldsMoreOver self.old self.new }
    {
        assert_node(
            self.alloc,
            &mut self.graph,
            &self.formulas,
            &mut self.asserted,
            n,
            unions,
        )
    }

    /// Does what refutes a literal that was entered: keeps the terms of an equation apart, merges those of a disequation, or
    /// merges the term of an atom with the other truth. For any other node it does nothing. The unions that come of it are put
    /// last. Without memory all is as before.
    pub fn refute(&mut self, n: u32, unions: &mut Vec<Union>) -> Result<(), Memory>
        requires { n < length self.old.formulas.nodes }
        ensures ok { OnOk result ((node : SpecNode) → slice_get self.old.formulas.nodes n ≡ Some node → held_of self.new ≡ held (replay self.old.graph (refuting_of node)) self.old.asserted) }
        ensures unions { OnOk result (ListsMore self.old.graph.standing self.new.graph.standing unions.old.items unions.new.items) }
        ensures terms { OnOk result (terms_of self.new.graph.standing ≡ terms_of self.old.graph.standing) }
        ensures differs { OnOk result ((more : List (ℕ × ℕ)) × (differs_of self.new.graph.standing ≡ differs_of self.old.graph.standing ++ more)) }
        ensures err { OnErr result (self.new ≡ self.old) }
        ensures more { HoldsMoreOver self.old self.new }
    {
        let _nodes = self.formulas.len();
        refute_node(&mut self.graph, self.formulas.node(n), unions)
    }

    /// What is held now, to go back to. Takes no memory.
    pub fn mark(&self) -> Mark
        ensures { IsMark self.now result }
    {
        Mark {
            version: self.graph.version(),
            nodes: self.formulas.len(),
            foralls: self.formulas.foralls(),
            asserted: self.asserted.len(),
        }
    }

    /// Goes back to what was held at a mark, and to the formulas that stood then, in the same levels. Takes no memory.
    pub fn back_to(&mut self, mark: Mark)
        requires { (before : Assertions) × IsMark before mark × KeepsLevels before self.old }
        ensures { (before : Assertions) → IsMark before mark → KeepsLevels before self.old → self.new ≡ before }
    {
        take_back_to(&mut self.graph, mark.version);
        self.formulas.cut(mark.nodes, mark.foralls);
        self.asserted.keep_first(mark.asserted);
    }

    /// Opens a level. Without memory all is as before.
    pub fn push(&mut self) -> Result<(), Memory>
        ensures ok { OnOk result (self.new ≡ pushed self.old) }
        ensures err { OnErr result (self.new ≡ self.old) }
    {
        if self.levels.len() >= MOST_LEVELS {
            return Err(Memory);
        }
        let level = Level {
            nodes: self.formulas.len(),
            foralls: self.formulas.foralls(),
            asserted: self.asserted.len(),
        };
        self.levels.reserve(1)?;
        AssertionGraph::push(&mut self.graph)?;
        self.levels.push_reserved(level);
        Ok(())
    }

    /// Ends the last level that is open, with all that came in it. Always succeeds, and takes no memory.
    pub fn pop(&mut self)
        requires { 0 < length self.old.saved }
        ensures { self.new ≡ popped self.old }
    {
        match self.levels.pop() {
            Some(level) => {
                MatchingGraph::pop(&mut self.graph);
                self.formulas.cut(level.nodes, level.foralls);
                self.asserted.keep_first(level.asserted);
            }
            None => unreachable!(),
        }
    }
}
