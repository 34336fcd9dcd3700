//! The body of a forall.
ghost use Rattle.std.specs.Prelude.{◌≡◌, ℕ, ◌<◌, ◌≤◌, ◌++◌, ◌∷◌, [], Some, length, slice_get, slice_index, All, AllPairs, IfOk, OnOk};
ghost use Rattle.graph_meaning.specs.Questions.{AreAll};
ghost use Rattle.formula_draft.specs.DraftRow.{args_of};
ghost use Rattle.formula_draft.specs.DraftNode.{rows_of, parts_of};
ghost use Rattle.formula_draft.specs.Draft.{IsFormula};
ghost use Rattle.formula_table.specs.Marks.{IsMarked};
ghost use Rattle.formula_table.specs.Body.{IsBodyOf, renamed_row, renamed_node};
ghost use Rattle.formula_table.specs.BodyInside.{with_marked, ArePlaces, AreMoved};

use crate::enter_nodes::renamed_parts;
use crate::enter_rows::push_number;
use crate::reached::{reached_nodes, reached_rows};
use crate::row_list::RowList;
use formula_draft::{DraftNode, DraftRow, Formula};
use graph_terms::Memory;
use std::alloc::Global;
use std::marker::Model;

/// The body of a forall, as a formula over the forall's variables: rows over earlier ones, nodes over rows and earlier
/// nodes, and which node it is. All of them are reached from that node.
#[derive(Drop)]
pub struct Body {
    rows: Vec<DraftRow>,
    nodes: Vec<DraftNode>,
    root: u32,
}

impl Model for Body {
    ghost use Rattle.formula_draft.specs.Draft.{Formula};

    ghost Value = { Formula };

    ghost use Rattle.formula_table.specs.BodyView.{body_formula};

    ghost view = { body_formula };
}

impl Body {
    /// What is reached of a formula from a node, without going into the bodies of foralls.
    pub(crate) fn of_node(alloc: Global, formula: &Formula, start: u32) -> Result<Body, Memory>
        requires formula { IsFormula formula.now }
        requires stands { start < length formula.now.nodes }
        ensures { IfOk result (IsBodyOf formula.now.rows formula.now.nodes start) }
    {
        let nodes = reached_nodes(alloc, formula, start)?;
        let rows = reached_rows(alloc, formula, start, &nodes)?;
        let kept_rows = marked(alloc, &rows, formula.rows())?;
        let kept_nodes = marked(alloc, &nodes, formula.nodes())?;
        let row_places = places(alloc, &kept_rows, formula.rows())?;
        let node_places = places(alloc, &kept_nodes, formula.nodes())?;
        let body_rows = moved_rows(alloc, formula, &kept_rows, &row_places)?;
        let body_nodes = moved_nodes(alloc, formula, &kept_nodes, &row_places, &node_places)?;
        Ok(Body {
            rows: body_rows,
            nodes: body_nodes,
            root: node_places[start as usize],
        })
    }

    /// The number of nodes.
    pub(crate) fn node_count(&self) -> usize
        ensures { result ≡ length self.now.nodes }
    {
        self.nodes.len()
    }

    /// The node with this number.
    pub(crate) fn node_at(&self, n: usize) -> &DraftNode
        requires { n < length self.now.nodes }
        ensures { slice_get self.now.nodes n ≡ Some result.now }
    {
        &self.nodes[n]
    }

    /// The node that the body is.
    pub(crate) fn root(&self) -> u32
        ensures { result ≡ self.now.root }
    {
        self.root
    }
}

impl RowList for Body {
    ghost formula = { λ body. body };

    fn row_count(&self) -> usize {
        self.rows.len()
    }

    fn row(&self, n: usize) -> &DraftRow {
        &self.rows[n]
    }
}

/// Puts a number last, where it is marked.
fn push_marked(kept: &mut Vec<u32>, n: u32, marked: bool) -> Result<(), Memory>
    ensures { OnOk result (kept.new.items ≡ with_marked n marked kept.old.items) }
{
    if marked {
        push_number(kept, n)?;
    }
    Ok(())
}

/// The marked numbers, rising.
fn marked(alloc: Global, marks: &[bool], count: u32) -> Result<Vec<u32>, Memory>
    requires { length marks.now ≡ count }
    ensures all { IfOk result (λ kept. AreAll (IsMarked marks.now) kept.items) }
    ensures few { IfOk result (λ kept. length kept.items ≤ count) }
{
    let mut kept = Vec::new(alloc);
    for n in 0..count {
        push_marked(&mut kept, n, marks[n as usize])?;
    }
    Ok(kept)
}

/// The place of each kept number, by number.
fn places(alloc: Global, kept: &[u32], count: u32) -> Result<Vec<u32>, Memory>
    requires below { All (λ n. n < count) kept.now }
    requires rising { AllPairs (λ a b. a < b) kept.now }
    requires few { length kept.now ≤ count }
    ensures { IfOk result (λ places. ArePlaces kept.now count places.items) }
{
    let mut places = vec![in alloc; 0u32; count as usize]?;
    for (place, n) in kept.iter().enumerate() {
        places[*n as usize] = place as u32;
    }
    Ok(places)
}

/// The row over places in place of numbers.
fn moved_row(alloc: Global, row: &DraftRow, places: &[u32]) -> Result<DraftRow, Memory>
    requires { All (λ arg. arg < length places.now) (args_of row.now) }
    ensures { IfOk result (λ moved. moved ≡ renamed_row (slice_index places.now) row.now) }
{
    match row {
        DraftRow::Var { index } => return Ok(DraftRow::Var { index: *index }),
        DraftRow::App { symbol, args } => {
            let args = renamed_parts(alloc, args.as_slice(), places)?;
            return Ok(DraftRow::App {
                symbol: *symbol,
                args,
            });
        }
    }
}

/// Puts a row last.
fn push_row(rows: &mut Vec<DraftRow>, row: DraftRow) -> Result<(), Memory>
    ensures { OnOk result (rows.new.items ≡ rows.old.items ++ row ∷ []) }
{
    rows.push(row)?;
    Ok(())
}

/// The kept rows of a formula, in order, over their places.
fn moved_rows(
    alloc: Global,
    formula: &Formula,
    kept: &[u32],
    places: &[u32],
) -> Result<Vec<DraftRow>, Memory>
    requires formula { IsFormula formula.now }
    requires stand { All (λ n. n < length formula.now.rows) kept.now }
    requires places { length places.now ≡ length formula.now.rows }
    ensures { IfOk result (λ rows. AreMoved (renamed_row (slice_index places.now)) formula.now.rows kept.now rows.items) }
{
    let mut rows = Vec::new(alloc);
    for n in kept {
        let row = moved_row(alloc, formula.row_at(*n), places)?;
        push_row(&mut rows, row)?;
    }
    Ok(rows)
}

/// The node over places in place of numbers.
fn moved_node(
    alloc: Global,
    node: &DraftNode,
    row_places: &[u32],
    node_places: &[u32],
) -> Result<DraftNode, Memory>
    requires rows { All (λ row. row < length row_places.now) (rows_of node.now) }
    requires parts { All (λ part. part < length node_places.now) (parts_of node.now) }
    ensures { IfOk result (λ moved. moved ≡ renamed_node (slice_index row_places.now) (slice_index node_places.now) node.now) }
{
    match node {
        DraftNode::Equal {
            positive,
            left,
            right,
        } => {
            return Ok(DraftNode::Equal {
                positive: *positive,
                left: row_places[*left as usize],
                right: row_places[*right as usize],
            });
        }
        DraftNode::Atom { positive, row } => {
            return Ok(DraftNode::Atom {
                positive: *positive,
                row: row_places[*row as usize],
            });
        }
        DraftNode::And { parts } => {
            let parts = renamed_parts(alloc, parts.as_slice(), node_places)?;
            return Ok(DraftNode::And { parts });
        }
        DraftNode::Or { parts } => {
            let parts = renamed_parts(alloc, parts.as_slice(), node_places)?;
            return Ok(DraftNode::Or { parts });
        }
        DraftNode::Forall { index } => return Ok(DraftNode::Forall { index: *index }),
    }
}

/// Puts a node last.
fn push_node(nodes: &mut Vec<DraftNode>, node: DraftNode) -> Result<(), Memory>
    ensures { OnOk result (nodes.new.items ≡ nodes.old.items ++ node ∷ []) }
{
    nodes.push(node)?;
    Ok(())
}

/// The kept nodes of a formula, in order, over places of rows and nodes.
fn moved_nodes(
    alloc: Global,
    formula: &Formula,
    kept: &[u32],
    row_places: &[u32],
    node_places: &[u32],
) -> Result<Vec<DraftNode>, Memory>
    requires formula { IsFormula formula.now }
    requires stand { All (λ n. n < length formula.now.nodes) kept.now }
    requires rows { length row_places.now ≡ length formula.now.rows }
    requires nodes { length node_places.now ≡ length formula.now.nodes }
    ensures { IfOk result (λ nodes. AreMoved (renamed_node (slice_index row_places.now) (slice_index node_places.now)) formula.now.nodes kept.now nodes.items) }
{
    let mut nodes = Vec::new(alloc);
    for n in kept {
        let node = moved_node(alloc, formula.node_at(*n), row_places, node_places)?;
        push_node(&mut nodes, node)?;
    }
    Ok(nodes)
}
