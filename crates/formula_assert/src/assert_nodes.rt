//! Asserts a node of the table of formulas, with the parts of conjunctions.
ghost use Rattle.std.specs.Prelude.{◌≡◌, ℕ, ◌<◌, ◌++◌, ◌∷◌, [], length, map, reverse, slice_get, Some, All, OnOk, OnErr, if◌then◌else◌};
ghost use Rattle.graph_meaning.specs.declared.op.Op.TheVariants.{Merge as MergeOp, Differ as DifferOp, Live as LiveOp};
ghost use Rattle.graph_trigger.specs.Trigger.{IsValid};
ghost use Rattle.graph_meaning.specs.State.{replay, state_after};
ghost use Rattle.graph_meaning.specs.Standing.{terms_of};
ghost use Rattle.formula_table.specs.Formulas.{IsFormulaTable, NodesStand};
ghost use Rattle.formula_table.specs.Node.{terms_in};
ghost use Rattle.formula_assert.specs.Held.{held, operations_of, refuting_of, conjuncts_of};
ghost use Rattle.formula_assert.specs.Asserts.{Asserts};
ghost use Rattle.formula_assert.specs.InLevel.{GrowsGraph, HoldsMore};
ghost use Rattle.formula_assert.specs.WorkList.{AssertsNext};
ghost use Rattle.formula_assert.specs.News.{ListsMore};

use crate::asserted_nodes::AssertedNodes;
use crate::assertion_graph::AssertionGraph;
use formula_table::{FormulaTable, Node};
use graph_meaning::Union;
use graph_terms::Memory;
use graph_trigger::Triggers;
use std::alloc::Global;

/// The term that is true.
const TRUE_TERM: u32 = 0;

/// The term that is false.
const FALSE_TERM: u32 = 1;

/// Puts a number last.
fn push_number(numbers: &mut Vec<u32>, number: u32) -> Result<(), Memory>
    ensures { OnOk result (numbers.new.items ≡ numbers.old.items ++ number ∷ []) }
{
    numbers.push(number)?;
    Ok(())
}

/// Puts the parts of a conjunction last, the first of them at the end.
fn push_conjuncts(work: &mut Vec<u32>, node: &Node) -> Result<(), Memory>
    ensures { OnOk result (work.new.items ≡ work.old.items ++ reverse (conjuncts_of node.now)) }
{
    if let Node::And { parts } = node {
        let count = parts.len();
        for i in 0..count {
            push_number(work, parts.get(count - 1 - i))?;
        }
    }
    Ok(())
}

/// Makes the triggers live, in order.
fn make_live<G: AssertionGraph>(graph: &mut G, triggers: &Triggers) -> Result<(), Memory>
    requires { All IsValid triggers.now }
    ensures ok { OnOk result (G.state graph.new ≡ replay (G.state graph.old) (map LiveOp triggers.now)) }
    ensures grows { GrowsGraph (G.state graph.old) (G.state graph.new) }
    ensures keeps { G.kept graph.old graph.new }
{
    for i in 0..triggers.len() {
        graph.live(triggers.get(i))?;
    }
    Ok(())
}

/// Merges the terms of an equation, or, where it is not positive, keeps them apart. The unions that come of it are put last.
fn assert_equation<G: AssertionGraph>(
    graph: &mut G,
    positive: bool,
    left: u32,
    right: u32,
    unions: &mut Vec<Union>,
) -> Result<(), Memory>
    requires left { left < length (terms_of (G.state graph.old).standing) }
    requires right { right < length (terms_of (G.state graph.old).standing) }
    ensures ok { OnOk result (G.state graph.new ≡ state_after (G.state graph.old) (if positive then MergeOp left right else DifferOp left right)) }
    ensures unions { OnOk result (ListsMore (G.state graph.old).standing (G.state graph.new).standing unions.old.items unions.new.items) }
    ensures err { OnErr result (G.state graph.new ≡ G.state graph.old) }
    ensures keeps { G.kept graph.old graph.new }
{
    if positive {
        graph.merge(left, right, unions)
    } else {
        graph.differ(left, right)
    }
}

/// Merges the term of an atom with true, or, where it is not positive, with false. The unions that come of it are put last.
fn assert_truth<G: AssertionGraph>(
    graph: &mut G,
    positive: bool,
    term: u32,
    unions: &mut Vec<Union>,
) -> Result<(), Memory>
    requires { term < length (terms_of (G.state graph.old).standing) }
    ensures ok { OnOk result (G.state graph.new ≡ state_after (G.state graph.old) (MergeOp term (if positive then 0 else 1))) }
    ensures unions { OnOk result (ListsMore (G.state graph.old).standing (G.state graph.new).standing unions.old.items unions.new.items) }
    ensures err { OnErr result (G.state graph.new ≡ G.state graph.old) }
    ensures keeps { G.kept graph.old graph.new }
{
    let truth = if positive { TRUE_TERM } else { FALSE_TERM };
    graph.merge(term, truth, unions)
}

/// Does the operations that a node stands for by itself, and puts the unions that come of them last.
fn do_operations<G: AssertionGraph>(
    graph: &mut G,
    formulas: &FormulaTable,
    node: &Node,
    unions: &mut Vec<Union>,
) -> Result<(), Memory>
    requires stands { (n : ℕ) × (slice_get formulas.now.nodes n ≡ Some node.now) }
    requires table { IsFormulaTable formulas.now }
    requires terms { NodesStand (length (terms_of (G.state graph.old).standing)) formulas.now.nodes }
    ensures ok { OnOk result (G.state graph.new ≡ replay (G.state graph.old) (operations_of formulas.now node.now)) }
    ensures unions { OnOk result (ListsMore (G.state graph.old).standing (G.state graph.new).standing unions.old.items unions.new.items) }
    ensures grows { GrowsGraph (G.state graph.old) (G.state graph.new) }
    ensures keeps { G.kept graph.old graph.new }
{
    match node {
        Node::Equal {
            positive,
            left,
            right,
        } => assert_equation(graph, *positive, *left, *right, unions),
        Node::Atom { positive, term } => assert_truth(graph, *positive, *term, unions),
        Node::And { .. } | Node::Or { .. } => Ok(()),
        Node::Forall { forall } => make_live(graph, formulas.triggers_of(*forall)),
    }
}

/// Does the operations that refute a node, where it is a literal, and puts the unions that come of them last.
pub(crate) fn refute_node<G: AssertionGraph>(
    graph: &mut G,
    node: &Node,
    unions: &mut Vec<Union>,
) -> Result<(), Memory>
    requires { All (λ term. term < length (terms_of (G.state graph.old).standing)) (terms_in node.now) }
    ensures ok { OnOk result (G.state graph.new ≡ replay (G.state graph.old) (refuting_of node.now)) }
    ensures unions { OnOk result (ListsMore (G.state graph.old).standing (G.state graph.new).standing unions.old.items unions.new.items) }
    ensures err { OnErr result (G.state graph.new ≡ G.state graph.old) }
    ensures keeps { G.kept graph.old graph.new }
{
    match node {
        Node::Equal {
            positive,
            left,
            right,
        } => assert_equation(graph, !*positive, *left, *right, unions),
        Node::Atom { positive, term } => assert_truth(graph, !*positive, *term, unions),
        Node::And { .. } | Node::Or { .. } | Node::Forall { .. } => Ok(()),
    }
}

/// Asserts a node by itself, where it is not asserted yet, and puts its conjuncts on the work list. The unions that come of it
/// are put last.
fn assert_next<G: AssertionGraph>(
    graph: &mut G,
    formulas: &FormulaTable,
    asserted: &mut AssertedNodes,
    work: &mut Vec<u32>,
    n: u32,
    unions: &mut Vec<Union>,
) -> Result<(), Memory>
    requires stands { n < length formulas.now.nodes }
    requires table { IsFormulaTable formulas.now }
    requires terms { NodesStand (length (terms_of (G.state graph.old).standing)) formulas.now.nodes }
    ensures ok { OnOk result (AssertsNext formulas.now n (held (G.state graph.old) asserted.old) work.old.items (held (G.state graph.new) asserted.new) work.new.items) }
    ensures unions { OnOk result (ListsMore (G.state graph.old).standing (G.state graph.new).standing unions.old.items unions.new.items) }
    ensures grows { HoldsMore (held (G.state graph.old) asserted.old) (held (G.state graph.new) asserted.new) }
    ensures keeps { G.kept graph.old graph.new }
{
    if asserted.has(n) {
        return Ok(());
    }
    let node = formulas.node(n);
    asserted.put(n)?;
    do_operations(graph, formulas, node, unions)?;
    push_conjuncts(work, node)?;
    Ok(())
}

/// Asserts a node with all that it stands for, and puts the unions that come of it last. After want of memory a part stands: more is asserted, and more operations stand.
pub fn assert_node<G: AssertionGraph>(
    alloc: Global,
    graph: &mut G,
    formulas: &FormulaTable,
    asserted: &mut AssertedNodes,
    root: u32,
    unions: &mut Vec<Union>,
) -> Result<(), Memory>
    requires stands { root < length formulas.now.nodes }
    requires terms { NodesStand (length (terms_of (G.state graph.old).standing)) formulas.now.nodes }
    ensures ok { OnOk result (Asserts formulas.now root (held (G.state graph.old) asserted.old) (held (G.state graph.new) asserted.new)) }
    ensures unions { OnOk result (ListsMore (G.state graph.old).standing (G.state graph.new).standing unions.old.items unions.new.items) }
    ensures grows { HoldsMore (held (G.state graph.old) asserted.old) (held (G.state graph.new) asserted.new) }
    ensures keeps { G.kept graph.old graph.new }
{
    let _count = formulas.len();
    let mut work = Vec::new(alloc);
    push_number(&mut work, root)?;
    while let Some(n) = work.pop() {
        assert_next(graph, formulas, asserted, &mut work, n, unions)?;
    }
    Ok(())
}
