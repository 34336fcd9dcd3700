//! Rows, formulas and foralls of one assertion, each once, in the order in which its text names them.
use crate::marks::{is_marked, mark, mark_parts};
use crate::node::Node;
use crate::row::Row;
use std::alloc::{AllocError, Global};

/// A forall of an assertion: how many variables it has, its body, and for each trigger the rows of its patterns.
#[derive(Drop)]
pub(crate) struct Quantified {
    pub(crate) variables: usize,
    pub(crate) body: usize,
    pub(crate) triggers: Vec<Vec<usize>>,
}

/// The rows, formulas and foralls of an assertion.
#[derive(Drop)]
pub(crate) struct Draft {
    pub(crate) rows: Vec<Row>,
    pub(crate) nodes: Vec<Node>,
    pub(crate) foralls: Vec<Quantified>,
}

/// The number of a row, which is put last where it does not stand.
pub(crate) fn put_row(rows: &mut Vec<Row>, row: Row) -> Result<usize, AllocError> {
    for number in 0..rows.len() {
        if rows.get(number) == Some(&row) {
            return Ok(number);
        }
    }
    rows.push(row)?;
    Ok(rows.len() - 1)
}

/// The number of a formula, which is put last where it does not stand.
pub(crate) fn put_node(nodes: &mut Vec<Node>, node: Node) -> Result<usize, AllocError> {
    for number in 0..nodes.len() {
        if nodes.get(number) == Some(&node) {
            return Ok(number);
        }
    }
    nodes.push(node)?;
    Ok(nodes.len() - 1)
}

impl Draft {
    /// Nothing yet.
    pub(crate) fn new(alloc: Global) -> Draft {
        Draft {
            rows: Vec::new(alloc),
            nodes: Vec::new(alloc),
            foralls: Vec::new(alloc),
        }
    }

    /// For each formula whether it is a part of the root, at any depth, or the root itself.
    pub(crate) fn reached_nodes(
        &self,
        alloc: Global,
        root: usize,
    ) -> Result<Vec<bool>, AllocError> {
        let mut reached = vec![in alloc; false; self.nodes.len()]?;
        mark(&mut reached, Some(root));
        for number in (0..self.nodes.len()).rev() {
            if !is_marked(&reached, number) {
                continue;
            }
            match self.nodes.get(number) {
                Some(Node::Each(parts) | Node::Either(parts)) => mark_parts(&mut reached, parts),
                _ => {}
            }
        }
        Ok(reached)
    }

    /// For each row whether a reached formula has it, at any depth.
    pub(crate) fn reached_rows(
        &self,
        alloc: Global,
        nodes: &[bool],
    ) -> Result<Vec<bool>, AllocError> {
        let mut reached = vec![in alloc; false; self.rows.len()]?;
        for (node, stands) in self.nodes.iter().zip(nodes.iter()) {
            match node {
                Node::Equal { left, right, .. } if *stands => {
                    mark(&mut reached, Some(*left));
                    mark(&mut reached, Some(*right));
                }
                Node::Atom { term, .. } if *stands => mark(&mut reached, Some(*term)),
                _ => {}
            }
        }
        for number in (0..self.rows.len()).rev() {
            if !is_marked(&reached, number) {
                continue;
            }
            if let Some(row) = self.rows.get(number) {
                mark(&mut reached, row.args[0]);
                mark(&mut reached, row.args[1]);
            }
        }
        Ok(reached)
    }
}
