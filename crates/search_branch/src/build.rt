//! The values and the watch of a table of formulas.
ghost use Rattle.std.specs.Prelude.{◌≡◌, ℕ, ◌<◌, ◌≤◌, ◌++◌, ◌↔◌, List, length, map, take, All, IsTrue, IfOk, OnOk};
ghost use Rattle.graph_meaning.specs.Standing.{terms_of};
ghost use Rattle.formula_table.specs.Node.{terms_in};
ghost use Rattle.search_values.specs.Kept.{given_of};
ghost use Rattle.search_watch.specs.Service.{ServesNow, Serves, HasClash, service};
ghost use Rattle.search_branch.specs.Given.{kind_in, parts_in, ends_in, ends_of};
ghost use Rattle.search_branch.specs.Grown.{ComesBehind};
ghost use Rattle.search_watch.specs.Back.{CanGoBack};

use formula_assert::AssertionStack;
use formula_table::{FormulaTable, Node};
use graph_terms::Numbers;
use match_graph::MatchingGraph;
use search_board::Kind;
use search_list::ShortList;
use search_values::NodeValues;
use search_watch::Watch;
use search_watch::laws::can_go_back_further;
use std::alloc::{AllocError, Global};

/// The term that is true.
const TRUE_TERM: u32 = 0;

/// The term that is false.
const FALSE_TERM: u32 = 1;

/// Whether two terms that are kept apart are equal.
pub(crate) fn is_lost(graph: &MatchingGraph) -> bool
    ensures { IsTrue result ↔ HasClash graph.now.standing }
{
    match graph.clash() {
        Some(_clash) => true,
        None => false,
    }
}

/// A height, below 32, of a tree with so many leaves, if there is one.
pub(crate) fn height_of(count: u32) -> u32
    ensures { result < 32 }
{
    for height in 0..31u32 {
        if (1 << height) >= count {
            return height;
        }
    }
    31
}

/// The numbers as a list.
fn list_of(alloc: Global, numbers: &Numbers) -> Result<ShortList<u32>, AllocError>
    ensures { IfOk result (λ list. list ≡ numbers.now) }
{
    let mut list = ShortList::new(alloc);
    for i in 0..numbers.len() {
        list.push(numbers.get(i))?;
    }
    Ok(list)
}

/// The kind of a node.
fn kind_of(node: &Node) -> Kind
    ensures { result ≡ kind_in node.now }
{
    match node {
        Node::And { .. } => Kind::And,
        Node::Or { .. } => Kind::Or,
        Node::Equal { .. } | Node::Atom { .. } | Node::Forall { .. } => Kind::Leaf,
    }
}

/// The parts of a connective.
fn parts_of(alloc: Global, node: &Node) -> Result<ShortList<u32>, AllocError>
    ensures { IfOk result (λ parts. parts ≡ parts_in node.now) }
{
    match node {
        Node::And { parts } | Node::Or { parts } => return list_of(alloc, parts),
        Node::Equal { .. } | Node::Atom { .. } | Node::Forall { .. } => {
            return Ok(ShortList::new(alloc));
        }
    }
}

/// Enters the nodes of the table from this one on, of which nothing is told yet.
pub(crate) fn enter_nodes(
    alloc: Global,
    values: &mut NodeValues,
    formulas: &FormulaTable,
    first: u32,
) -> Result<(), AllocError>
    requires first { first ≤ length formulas.now.nodes }
    requires kinds { (given_of values.old).kinds ≡ map kind_in (take first formulas.now.nodes) }
    requires parts { (given_of values.old).parts ≡ map parts_in (take first formulas.now.nodes) }
    ensures behind { OnOk result (ComesBehind formulas.now.nodes first (given_of values.old) (given_of values.new)) }
    ensures saved { OnOk result (values.new.saved ≡ values.old.saved) }
{
    for n in first..formulas.len() {
        let node = formulas.node(n);
        let parts = parts_of(alloc, node)?;
        values.enter(kind_of(node), parts)?;
    }
    Ok(())
}

/// Adds the ends of a node to the watch, if it is a literal.
fn add_ends(watch: &mut Watch, graph: &MatchingGraph, n: u32, node: &Node) -> Result<(), AllocError>
    requires serves { ServesNow graph.now.standing watch.old }
    requires terms { All (λ term. term < length (terms_of graph.now.standing)) (terms_in node.now) }
    ensures serves { OnOk result ((ends : List (ℕ × ℕ)) (bound : ℕ) → Serves (service graph.now.standing ends bound) watch.old → n < bound → Serves (service graph.now.standing (ends ++ ends_in n node.now) bound) watch.new) }
    ensures back { OnOk result (CanGoBack watch.old watch.new) }
{
    can_go_back_further();
    match node {
        Node::Equal { left, right, .. } => {
            watch.add_literal(graph, n, *left)?;
            watch.add_literal(graph, n, *right)?;
        }
        Node::Atom { term, .. } => {
            watch.add_literal(graph, n, *term)?;
            watch.add_literal(graph, n, TRUE_TERM)?;
            watch.add_literal(graph, n, FALSE_TERM)?;
        }
        Node::And { .. } | Node::Or { .. } | Node::Forall { .. } => {}
    }
    Ok(())
}

/// Adds the literals among the stack's formulas, from this one on, to the watch.
pub(crate) fn add_literals(
    watch: &mut Watch,
    stack: &AssertionStack,
    first: u32,
) -> Result<(), AllocError>
    requires first { first ≤ length stack.now.formulas.nodes }
    requires serves { Serves (service stack.now.graph.standing (ends_of 0 (take first stack.now.formulas.nodes)) first) watch.old }
    ensures serves { OnOk result (Serves (service stack.now.graph.standing (ends_of 0 stack.now.formulas.nodes) (length stack.now.formulas.nodes)) watch.new) }
    ensures back { OnOk result (CanGoBack watch.old watch.new) }
{
    can_go_back_further();
    let _rules = stack.depth();
    let graph = stack.graph();
    let formulas = stack.formulas();
    for n in first..formulas.len() {
        add_ends(watch, graph, n, formulas.node(n))?;
    }
    Ok(())
}

/// The watch of the stack's graph, with the literals of the stack's formulas.
pub(crate) fn watch_of(alloc: Global, stack: &AssertionStack) -> Result<Watch, AllocError>
    ensures { IfOk result (λ watch. Serves (service stack.now.graph.standing (ends_of 0 stack.now.formulas.nodes) (length stack.now.formulas.nodes)) watch) }
{
    let graph = stack.graph();
    let mut watch = Watch::of_graph(alloc, graph, graph.differences())?;
    add_literals(&mut watch, stack, 0)?;
    Ok(watch)
}
