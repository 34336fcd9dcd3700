//! What of a formula is reached from a node.
ghost use Rattle.std.specs.Prelude.{◌≡◌, ◌<◌, true, length, replicate, All, IfOk};
ghost use Rattle.formula_draft.specs.DraftRow.{args_of};
ghost use Rattle.formula_draft.specs.DraftNode.{rows_of, parts_of, foralls_of};
ghost use Rattle.formula_draft.specs.Reach.{ReachesNode, ReachesRow};
ghost use Rattle.formula_table.specs.Marks.{Marks, AreMarks, IsNamed};
ghost use Rattle.formula_draft.specs.Draft.{IsFormula};
ghost use Rattle.formula_table.specs.Entry.{ReachesForall};

use formula_draft::{DraftNode, DraftRow, Formula};
use graph_terms::Memory;
use std::alloc::Global;

/// Marks these numbers.
fn mark(marks: &mut [bool], places: &[u32])
    requires { All (λ place. place < length marks.old) places.now }
    ensures { Marks places.now marks.old marks.new }
{
    for place in places {
        marks[*place as usize] = true;
    }
}

/// Marks the parts of a node.
fn mark_parts(marks: &mut [bool], node: &DraftNode)
    requires { All (λ part. part < length marks.old) (parts_of node.now) }
    ensures { Marks (parts_of node.now) marks.old marks.new }
{
    match node {
        DraftNode::And { parts } => mark(marks, parts.as_slice()),
        DraftNode::Or { parts } => mark(marks, parts.as_slice()),
        _ => mark(marks, &[]),
    }
}

/// Marks the rows that a node names.
fn mark_rows(marks: &mut [bool], node: &DraftNode)
    requires { All (λ row. row < length marks.old) (rows_of node.now) }
    ensures { Marks (rows_of node.now) marks.old marks.new }
{
    match node {
        DraftNode::Equal { left, right, .. } => mark(marks, &[*left, *right]),
        DraftNode::Atom { row, .. } => mark(marks, &[*row]),
        _ => mark(marks, &[]),
    }
}

/// Marks the forall that a node is.
fn mark_foralls(marks: &mut [bool], node: &DraftNode)
    requires { All (λ index. index < length marks.old) (foralls_of node.now) }
    ensures { Marks (foralls_of node.now) marks.old marks.new }
{
    match node {
        DraftNode::Forall { index } => mark(marks, &[*index]),
        _ => mark(marks, &[]),
    }
}

/// Marks the arguments of a row.
fn mark_args(marks: &mut [bool], row: &DraftRow)
    requires { All (λ arg. arg < length marks.old) (args_of row.now) }
    ensures { Marks (args_of row.now) marks.old marks.new }
{
    match row {
        DraftRow::App { args, .. } => mark(marks, args.as_slice()),
        DraftRow::Var { .. } => mark(marks, &[]),
    }
}

/// The nodes that are reached from the start, without going into the bodies of foralls.
pub(crate) fn reached_nodes(
    alloc: Global,
    formula: &Formula,
    start: u32,
) -> Result<Vec<bool>, Memory>
    requires formula { IsFormula formula.now }
    requires stands { start < length formula.now.nodes }
    ensures { IfOk result (λ marks. AreMarks (length formula.now.nodes) (ReachesNode formula.now.nodes start) marks.items) }
{
    let count = formula.nodes();
    let mut marks = vec![in alloc; false; count as usize]?;
    marks[start as usize] = true;
    let mut n = count;
    while n > 0 {
        n -= 1;
        if marks[n as usize] {
            mark_parts(&mut marks, formula.node_at(n));
        }
    }
    Ok(marks)
}

/// The rows that these nodes name.
fn named_rows(
    alloc: Global,
    formula: &Formula,
    start: u32,
    nodes: &[bool],
) -> Result<Vec<bool>, Memory>
    requires formula { IsFormula formula.now }
    requires nodes { AreMarks (length formula.now.nodes) (ReachesNode formula.now.nodes start) nodes.now }
    ensures { IfOk result (λ marks. AreMarks (length formula.now.rows) (IsNamed rows_of formula.now.nodes start) marks.items) }
{
    let mut marks = vec![in alloc; false; formula.rows() as usize]?;
    for n in 0..formula.nodes() {
        if nodes[n as usize] {
            mark_rows(&mut marks, formula.node_at(n));
        }
    }
    Ok(marks)
}

/// The rows that are reached from these nodes.
pub(crate) fn reached_rows(
    alloc: Global,
    formula: &Formula,
    start: u32,
    nodes: &[bool],
) -> Result<Vec<bool>, Memory>
    requires formula { IsFormula formula.now }
    requires nodes { AreMarks (length formula.now.nodes) (ReachesNode formula.now.nodes start) nodes.now }
    ensures { IfOk result (λ marks. AreMarks (length formula.now.rows) (ReachesRow formula.now.rows formula.now.nodes start) marks.items) }
{
    let mut marks = named_rows(alloc, formula, start, nodes)?;
    let mut n = formula.rows();
    while n > 0 {
        n -= 1;
        if marks[n as usize] {
            mark_args(&mut marks, formula.row_at(n));
        }
    }
    Ok(marks)
}

/// The foralls that these nodes are.
fn named_foralls(
    alloc: Global,
    formula: &Formula,
    start: u32,
    nodes: &[bool],
) -> Result<Vec<bool>, Memory>
    requires formula { IsFormula formula.now }
    requires nodes { AreMarks (length formula.now.nodes) (ReachesNode formula.now.nodes start) nodes.now }
    ensures { IfOk result (λ marks. AreMarks (length formula.now.foralls) (IsNamed foralls_of formula.now.nodes start) marks.items) }
{
    let mut marks = vec![in alloc; false; formula.foralls() as usize]?;
    for n in 0..formula.nodes() {
        if nodes[n as usize] {
            mark_foralls(&mut marks, formula.node_at(n));
        }
    }
    Ok(marks)
}

/// The foralls that are reached from the root.
pub(crate) fn reached_foralls(
    alloc: Global,
    formula: &Formula,
    nodes: &[bool],
) -> Result<Vec<bool>, Memory>
    requires formula { IsFormula formula.now }
    requires nodes { AreMarks (length formula.now.nodes) (ReachesNode formula.now.nodes formula.now.root) nodes.now }
    ensures { IfOk result (λ marks. AreMarks (length formula.now.foralls) (ReachesForall formula.now) marks.items) }
{
    let marks = named_foralls(alloc, formula, formula.root(), nodes)?;
    Ok(marks)
}

/// So many marks, of which each is set.
pub(crate) fn all_marked(alloc: Global, count: usize) -> Result<Vec<bool>, Memory>
    ensures { IfOk result (λ marks. marks.items ≡ replicate count true) }
{
    let marks = vec![in alloc; true; count]?;
    Ok(marks)
}
