//! A formula that is not entered yet.
ghost use Rattle.std.specs.Prelude.{◌≡◌, ◌<◌, Some, length, slice_get};
ghost use Rattle.formula_draft.specs.Draft.{IsFormula, finished};

use crate::draft_forall::DraftForall;
use crate::draft_node::DraftNode;
use crate::draft_row::DraftRow;
use crate::formula_draft::FormulaDraft;
use std::marker::Model;

/// One formula, as a node over rows, earlier nodes and foralls.
#[derive(Drop)]
pub struct Formula {
    draft: FormulaDraft,
    root: u32,
}

impl Model for Formula {
    ghost use Rattle.formula_draft.specs.Draft.{Formula, IsFormula, finished};

    ghost Value = { Formula };

    ghost view = { λ formula. finished formula.draft formula.root };

    ghost invariant = { λ formula. IsFormula (finished formula.draft formula.root) };
}

impl Formula {
    /// The formula of a node.
    pub(crate) fn of_node(draft: FormulaDraft, root: u32) -> Formula
        requires { IsFormula (finished draft root) }
        ensures { result ≡ finished draft root }
    {
        Formula { draft, root }
    }

    /// The node that the formula is.
    pub fn root(&self) -> u32
        ensures value { result ≡ self.now.root }
        ensures formula { IsFormula self.now }
    {
        self.root
    }

    /// The number of rows.
    pub fn rows(&self) -> u32
        ensures { result ≡ length self.now.rows }
    {
        self.draft.rows()
    }

    /// The row with this number.
    pub fn row_at(&self, i: u32) -> &DraftRow
        requires { i < length self.now.rows }
        ensures { slice_get self.now.rows i ≡ Some result.now }
    {
        self.draft.row_at(i)
    }

    /// The number of nodes.
    pub fn nodes(&self) -> u32
        ensures { result ≡ length self.now.nodes }
    {
        self.draft.nodes()
    }

    /// The node with this number.
    pub fn node_at(&self, i: u32) -> &DraftNode
        requires { i < length self.now.nodes }
        ensures { slice_get self.now.nodes i ≡ Some result.now }
    {
        self.draft.node_at(i)
    }

    /// The number of foralls.
    pub fn foralls(&self) -> u32
        ensures { result ≡ length self.now.foralls }
    {
        self.draft.foralls()
    }

    /// The forall with this number.
    pub fn forall_at(&self, i: u32) -> &DraftForall
        requires { i < length self.now.foralls }
        ensures { slice_get self.now.foralls i ≡ Some result.now }
    {
        self.draft.forall_at(i)
    }
}
