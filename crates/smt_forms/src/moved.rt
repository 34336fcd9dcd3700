//! What an application of a definition puts.
ghost use Rattle.std.specs.Prelude.{◌≡◌, ◌<◌, ◌+◌, ◌∷◌, [], length, drop, map, get_or, IfOk};
ghost use Rattle.smt_names.specs.Value.{row_of};
ghost use Rattle.smt_names.specs.Making.{node as node_put_at};
ghost use Rattle.smt_names.specs.Names.{defined_as};
ghost use Rattle.smt_names.specs.Makes.{Makes, MakesItems};
ghost use Rattle.smt_forms.specs.Moved.{moved_numbers, moved_row, moved_rows, moved_node, moved_nodes, moved_value, unfolded};

use crate::parts::rows_of;
use crate::put::{put_node, put_row};
use formula_draft::{DraftNode, DraftRow, FormulaDraft};
use graph_terms::{Memory, Numbers};
use smt_names::{Definition, Stop, Value};
use smt_text::Place;
use std::alloc::Global;

/// The number at a place, 0 past the end.
fn number_at(numbers: &[u32], n: u32) -> u32
    ensures { result ≡ get_or numbers.now n 0 }
{
    match numbers.get(n as usize) {
        Some(number) => *number,
        None => 0,
    }
}

/// The numbers at these places.
fn move_numbers(alloc: Global, moved: &[u32], numbers: &Numbers) -> Result<Numbers, Memory>
    ensures { IfOk result (λ found. found ≡ moved_numbers moved.now numbers.now) }
{
    let mut found = Vec::new(alloc);
    for n in numbers.as_slice() {
        found.push(number_at(moved, *n))?;
    }
    Numbers::from_slice(alloc, &found)
}

/// Puts a row of a definition, with the rows of the arguments and those that the rows before it became.
fn put_moved_row(
    alloc: Global,
    draft: &mut FormulaDraft,
    at: Place,
    args: &[u32],
    rows: &[u32],
    row: &DraftRow,
) -> Result<u32, Stop>
    ensures { Makes result draft.old draft.new (moved_row args.now rows.now at row.now) }
{
    match row {
        DraftRow::Var { index } => Ok(number_at(args, *index)),
        DraftRow::App {
            symbol,
            args: numbers,
        } => {
            let moved = move_numbers(alloc, rows, numbers)?;
            put_row(
                alloc,
                draft,
                at,
                DraftRow::App {
                    symbol: *symbol,
                    args: moved,
                },
            )
        }
    }
}

/// The row with this number, the first of those from it on.
fn row_from(source: &FormulaDraft, i: u32) -> &DraftRow
    requires { i < length source.now.rows }
    ensures { drop i source.now.rows ≡ result.now ∷ drop (i + 1) source.now.rows }
{
    source.row_at(i)
}

/// Puts the rows of a definition. The numbers that they get.
fn put_moved_rows(
    alloc: Global,
    draft: &mut FormulaDraft,
    at: Place,
    args: &[u32],
    source: &FormulaDraft,
) -> Result<Vec<u32>, Stop>
    ensures { MakesItems result draft.old draft.new (moved_rows args.now [] at source.now.rows) }
{
    let mut rows = Vec::new(alloc);
    let mut i = 0;
    while i < source.rows() {
        match put_moved_row(alloc, draft, at, args, &rows, row_from(source, i)) {
            Err(stop) => return Err(stop),
            Ok(row) => rows.push(row)?,
        }
        i += 1;
    }
    Ok(rows)
}

/// A node of a definition, with what its rows and the nodes before it became, not put yet.
fn move_node(
    alloc: Global,
    rows: &[u32],
    nodes: &[u32],
    node: &DraftNode,
) -> Result<DraftNode, Memory>
    ensures { IfOk result (λ moved. moved ≡ moved_node rows.now nodes.now node.now) }
{
    match node {
        DraftNode::Equal {
            positive,
            left,
            right,
        } => Ok(DraftNode::Equal {
            positive: *positive,
            left: number_at(rows, *left),
            right: number_at(rows, *right),
        }),
        DraftNode::Atom { positive, row } => Ok(DraftNode::Atom {
            positive: *positive,
            row: number_at(rows, *row),
        }),
        DraftNode::And { parts } => {
            let parts = move_numbers(alloc, nodes, parts)?;
            Ok(DraftNode::And { parts })
        }
        DraftNode::Or { parts } => {
            let parts = move_numbers(alloc, nodes, parts)?;
            Ok(DraftNode::Or { parts })
        }
        DraftNode::Forall { index } => Ok(DraftNode::Forall { index: *index }),
    }
}

/// Puts a node of a definition, with what its rows and the nodes before it became.
fn put_moved_node(
    alloc: Global,
    draft: &mut FormulaDraft,
    at: Place,
    rows: &[u32],
    nodes: &[u32],
    node: &DraftNode,
) -> Result<u32, Stop>
    ensures { Makes result draft.old draft.new (node_put_at at (moved_node rows.now nodes.now node.now)) }
{
    let moved = move_node(alloc, rows, nodes, node)?;
    put_node(alloc, draft, at, moved)
}

/// The node with this number, the first of those from it on.
fn node_from(source: &FormulaDraft, i: u32) -> &DraftNode
    requires { i < length source.now.nodes }
    ensures { drop i source.now.nodes ≡ result.now ∷ drop (i + 1) source.now.nodes }
{
    source.node_at(i)
}

/// Puts the nodes of a definition. The numbers that they get.
fn put_moved_nodes(
    alloc: Global,
    draft: &mut FormulaDraft,
    at: Place,
    rows: &[u32],
    source: &FormulaDraft,
) -> Result<Vec<u32>, Stop>
    ensures { MakesItems result draft.old draft.new (moved_nodes rows.now [] at source.now.nodes) }
{
    let mut nodes = Vec::new(alloc);
    let mut i = 0;
    while i < source.nodes() {
        match put_moved_node(alloc, draft, at, rows, &nodes, node_from(source, i)) {
            Err(stop) => return Err(stop),
            Ok(node) => nodes.push(node)?,
        }
        i += 1;
    }
    Ok(nodes)
}

/// A value of a definition, with what its rows and nodes became.
fn move_value(rows: &[u32], nodes: &[u32], value: &Value) -> Value
    ensures { result ≡ moved_value rows.now nodes.now value.now }
{
    match value {
        Value::Term { row, sort } => Value::Term {
            row: number_at(rows, *row),
            sort: *sort,
        },
        Value::Formula { itself, complement } => Value::Formula {
            itself: number_at(nodes, *itself),
            complement: match complement {
                None => None,
                Some(n) => Some(number_at(nodes, *n)),
            },
        },
    }
}

/// An application of a definition: its rows and then its nodes, with the arguments put in.
pub(crate) fn put_unfolded(
    alloc: Global,
    draft: &mut FormulaDraft,
    at: Place,
    definition: &Definition,
    parts: &[Value],
) -> Result<Value, Stop>
    ensures { Makes result draft.old draft.new (unfolded at (defined_as [] definition.now) parts.now) }
{
    let args = rows_of(alloc, parts)?;
    let rows = put_moved_rows(alloc, draft, at, args.as_slice(), &definition.draft)?;
    let nodes = put_moved_nodes(alloc, draft, at, &rows, &definition.draft)?;
    Ok(move_value(&rows, &nodes, &definition.value))
}
