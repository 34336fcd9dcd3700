//! Enters the nodes of a formula.
ghost use Rattle.std.specs.Prelude.{◌≡◌, ◌<◌, ◌↔◌, length, map, slice_index, All, IsTrue, IfOk, IfErr, OnErr};
ghost use Rattle.formula_draft.specs.DraftNode.{rows_of, parts_of, foralls_of};
ghost use Rattle.formula_draft.specs.Reach.{ReachesNode};
ghost use Rattle.formula_draft.specs.Draft.{IsFormula};
ghost use Rattle.formula_table.specs.Marks.{AreMarks};
ghost use Rattle.formula_table.specs.Formulas.{GrowsTable};
ghost use Rattle.formula_table.specs.Entry.{entered_node};
ghost use Rattle.formula_table.specs.EntryInside.{ForallNumbersStand, NodeNumbersStand, NodeGrows, StopsNode, NodesEntered, StopsNodes};

use crate::enter_fault::EnterFault;
use crate::enter_rows::{push_number, renamed};
use crate::formula_table::FormulaTable;
use crate::node::Node;
use formula_draft::{DraftNode, Formula};
use graph_terms::{Memory, Numbers};
use std::alloc::Global;

/// The numbers that these parts have.
pub(crate) fn renamed_parts(
    alloc: Global,
    parts: &[u32],
    numbers: &[u32],
) -> Result<Numbers, Memory>
    requires { All (λ part. part < length numbers.now) parts.now }
    ensures { IfOk result (λ found. found ≡ map (slice_index numbers.now) parts.now) }
{
    let found = renamed(alloc, parts, numbers)?;
    let parts = Numbers::from_slice(alloc, found.as_slice())?;
    Ok(parts)
}

/// The node of the table that a node of the formula becomes, over terms, numbers of foralls and numbers of earlier nodes.
pub(crate) fn next_node(
    alloc: Global,
    node: &DraftNode,
    terms: &[u32],
    foralls: &[u32],
    numbers: &[u32],
) -> Result<Node, Memory>
    requires rows { All (λ row. row < length terms.now) (rows_of node.now) }
    requires parts { All (λ part. part < length numbers.now) (parts_of node.now) }
    requires foralls { All (λ n. n < length foralls.now) (foralls_of node.now) }
    ensures { IfOk result (λ made. made ≡ entered_node terms.now foralls.now numbers.now node.now) }
{
    match node {
        DraftNode::Equal {
            positive,
            left,
            right,
        } => {
            let left = terms[*left as usize];
            let right = terms[*right as usize];
            return Ok(Node::Equal {
                positive: *positive,
                left: left.min(right),
                right: left.max(right),
            });
        }
        DraftNode::Atom { positive, row } => {
            let term = terms[*row as usize];
            return Ok(Node::Atom {
                positive: *positive,
                term,
            });
        }
        DraftNode::And { parts } => {
            let parts = renamed_parts(alloc, parts.as_slice(), numbers)?;
            return Ok(Node::And { parts });
        }
        DraftNode::Or { parts } => {
            let parts = renamed_parts(alloc, parts.as_slice(), numbers)?;
            return Ok(Node::Or { parts });
        }
        DraftNode::Forall { index } => {
            let forall = foralls[*index as usize];
            return Ok(Node::Forall { forall });
        }
    }
}

/// Enters the next node, where it is reached. Gives its number, and 0 for one that isn't reached.
fn enter_node(
    alloc: Global,
    table: &mut FormulaTable,
    formula: &Formula,
    reached: bool,
    terms: &[u32],
    foralls: &[u32],
    numbers: &[u32],
) -> Result<u32, EnterFault>
    requires formula { IsFormula formula.now }
    requires next { length numbers.now < length formula.now.nodes }
    requires reached { IsTrue reached ↔ ReachesNode formula.now.nodes formula.now.root (length numbers.now) }
    requires terms { length terms.now ≡ length formula.now.rows }
    requires foralls { length foralls.now ≡ length formula.now.foralls }
    requires foralls_stand { ForallNumbersStand formula.now table.old foralls.now }
    requires stand { NodeNumbersStand formula.now table.old numbers.now }
    ensures ok { IfOk result (NodeGrows formula.now terms.now foralls.now numbers.now table.old table.new) }
    ensures fault { IfErr result (StopsNode formula.now terms.now foralls.now numbers.now table.old) }
    ensures err { OnErr result (table.new ≡ table.old) }
{
    if !reached {
        return Ok(0);
    }
    let count = formula.nodes();
    prove!(numbers.len() < count as usize);
    let node = formula.node_at(numbers.len() as u32);
    let node = next_node(alloc, node, terms, foralls, numbers)?;
    let number = table.put_node(node)?;
    Ok(number)
}

/// Enters the reached nodes, in order. Gives the number of the root.
pub(crate) fn enter_nodes(
    alloc: Global,
    table: &mut FormulaTable,
    formula: &Formula,
    reached: &[bool],
    terms: &[u32],
    foralls: &[u32],
) -> Result<u32, EnterFault>
    requires formula { IsFormula formula.now }
    requires reached { AreMarks (length formula.now.nodes) (ReachesNode formula.now.nodes formula.now.root) reached.now }
    requires terms { length terms.now ≡ length formula.now.rows }
    requires foralls { length foralls.now ≡ length formula.now.foralls }
    requires foralls_stand { ForallNumbersStand formula.now table.old foralls.now }
    ensures ok { IfOk result (NodesEntered formula.now terms.now foralls.now table.old table.new) }
    ensures fault { IfErr result (StopsNodes formula.now terms.now foralls.now table.old) }
    ensures grows { GrowsTable table.old table.new }
{
    let mut numbers = Vec::new(alloc);
    for n in 0..formula.nodes() {
        let number = enter_node(
            alloc,
            table,
            formula,
            reached[n as usize],
            terms,
            foralls,
            &numbers,
        )?;
        push_number(&mut numbers, number)?;
    }
    Ok(numbers[formula.root() as usize])
}
