//! A formula under way, without conditions.
ghost use Rattle.std.specs.Prelude.{◌≡◌, ◌<◌, ◌++◌, ◌∷◌, [], Some, None, length, slice_get, IfOk, IfErr, OnOk, OnErr};
ghost use Rattle.formula_draft.specs.Draft.{empty_draft, with_row, with_node, with_forall, RefusesRow, RefusesNode, IsFormula, draft_forall, finished};

use crate::draft_fault::DraftFault;
use crate::draft_forall::DraftForall;
use crate::draft_node::DraftNode;
use crate::draft_row::DraftRow;
use crate::formula::Formula;
use crate::items::put;
use graph_terms::Memory;
use graph_trigger::Triggers;
use indexmap::IndexMap;
use std::alloc::Global;
use std::marker::Model;

/// Rows, nodes and foralls by number, whatever they name. Rows and nodes that stand are not put again.
/// That what they make is a formula is asked once, at `finish`.
#[derive(Drop)]
pub struct FormulaDraft {
    most_rows: u32,
    most_nodes: u32,
    rows: IndexMap<Vec<u32>, DraftRow>,
    nodes: IndexMap<Vec<u32>, DraftNode>,
    foralls: Vec<DraftForall>,
}

impl Model for FormulaDraft {
    ghost use Rattle.formula_draft.specs.Draft.{Draft};

    ghost Value = { Draft };

    ghost use Rattle.formula_draft.specs.DraftInside.{draft_of, IsKept};

    ghost view = { draft_of };

    ghost invariant = { IsKept };
}

impl FormulaDraft {
    /// Nothing yet. There may be so many rows and nodes.
    pub fn new(alloc: Global, rows: u32, nodes: u32) -> FormulaDraft
        ensures { result ≡ empty_draft rows nodes }
    {
        FormulaDraft {
            most_rows: rows,
            most_nodes: nodes,
            rows: IndexMap::new(alloc),
            nodes: IndexMap::new(alloc),
            foralls: Vec::new(alloc),
        }
    }

    /// The number of the row, which is put last where it is new.
    pub fn row(&mut self, row: DraftRow) -> Result<u32, DraftFault>
        ensures ok { IfOk result (λ n. with_row row self.old ≡ Some (n, self.new)) }
        ensures fault { IfErr result (RefusesRow (with_row row self.old)) }
        ensures err { OnErr result (self.new ≡ self.old) }
    {
        let alloc = *self.rows.allocator();
        let key = row.key(alloc)?;
        let put = put(&mut self.rows, self.most_rows, key, row)?;
        match put {
            Some(n) => return Ok(n),
            None => return Err(DraftFault::RowsFull),
        }
    }

    /// The number of the node, which is put last where it is new.
    pub fn node(&mut self, node: DraftNode) -> Result<u32, DraftFault>
        ensures ok { IfOk result (λ n. with_node node self.old ≡ Some (n, self.new)) }
        ensures fault { IfErr result (RefusesNode (with_node node self.old)) }
        ensures err { OnErr result (self.new ≡ self.old) }
    {
        let alloc = *self.nodes.allocator();
        let key = node.key(alloc)?;
        let put = put(&mut self.nodes, self.most_nodes, key, node)?;
        match put {
            Some(n) => return Ok(n),
            None => return Err(DraftFault::NodesFull),
        }
    }

    /// Puts a forall last. Its number is its place.
    pub fn forall(
        &mut self,
        variables: u32,
        body: u32,
        triggers: Triggers,
    ) -> Result<u32, DraftFault>
        ensures number { IfOk result (λ n. n ≡ length self.old.foralls) }
        ensures ok { OnOk result (self.new ≡ with_forall (draft_forall variables body triggers) self.old) }
        ensures fault { IfErr result (λ fault. fault ≡ DraftFault.Memory) }
        ensures err { OnErr result (self.new ≡ self.old) }
    {
        let n = self.foralls.len();
        if n >= u32::MAX as usize {
            return Err(DraftFault::Memory);
        }
        push_forall(
            &mut self.foralls,
            DraftForall {
                variables,
                body,
                triggers,
            },
        )?;
        Ok(n as u32)
    }

    /// The formula of the node, where rows, nodes and foralls make a formula of it.
    pub fn finish(self, root: u32) -> Formula
        requires { IsFormula (finished self root) }
        ensures { result ≡ finished self root }
    {
        Formula::of_node(self, root)
    }

    /// The number of rows.
    pub fn rows(&self) -> u32
        ensures { result ≡ length self.now.rows }
    {
        self.rows.len() as u32
    }

    /// The row with this number.
    pub fn row_at(&self, i: u32) -> &DraftRow
        requires { i < length self.now.rows }
        ensures { slice_get self.now.rows i ≡ Some result.now }
    {
        self.rows.get_index(i as usize).unwrap().1
    }

    /// The number of nodes.
    pub fn nodes(&self) -> u32
        ensures { result ≡ length self.now.nodes }
    {
        self.nodes.len() as u32
    }

    /// The node with this number.
    pub fn node_at(&self, i: u32) -> &DraftNode
        requires { i < length self.now.nodes }
        ensures { slice_get self.now.nodes i ≡ Some result.now }
    {
        self.nodes.get_index(i as usize).unwrap().1
    }

    /// The number of foralls.
    pub fn foralls(&self) -> u32
        ensures { result ≡ length self.now.foralls }
    {
        self.foralls.len() as u32
    }

    /// The forall with this number.
    pub fn forall_at(&self, i: u32) -> &DraftForall
        requires { i < length self.now.foralls }
        ensures { slice_get self.now.foralls i ≡ Some result.now }
    {
        &self.foralls[i as usize]
    }
}

/// Puts a forall last.
fn push_forall(foralls: &mut Vec<DraftForall>, new: DraftForall) -> Result<(), Memory>
    ensures ok { OnOk result (foralls.new.items ≡ foralls.old.items ++ new ∷ []) }
    ensures err { OnErr result (foralls.new.items ≡ foralls.old.items) }
{
    foralls.push(new)?;
    Ok(())
}
