//! A node of a formula.
ghost use Rattle.std.specs.Prelude.{◌≡◌, IfOk};
ghost use Rattle.formula_draft.specs.DraftNode.{node_key};

use crate::items::key_of;
use graph_terms::{Memory, Numbers};
use std::alloc::Global;

/// A literal over rows, a connective over earlier nodes, or a forall. A node stands for the formula that it unfolds to.
#[derive(Debug, Drop)]
pub enum DraftNode {
    /// The terms of the two rows are equal, or, where not positive, they differ.
    Equal {
        positive: bool,
        left: u32,
        right: u32,
    },
    /// The term of the row is true, or, where not positive, false.
    Atom {
        positive: bool,
        row: u32,
    },
    /// Each part is true.
    And {
        parts: Numbers,
    },
    /// Some part is true.
    Or {
        parts: Numbers,
    },
    /// The forall of the formula with this index.
    Forall {
        index: u32,
    },
}

impl DraftNode {
    /// The numbers that tell the node from every other.
    pub(crate) fn key(&self, alloc: Global) -> Result<Vec<u32>, Memory>
        ensures { IfOk result (λ key. key.items ≡ node_key self.now) }
    {
        match self {
            DraftNode::Equal {
                positive,
                left,
                right,
            } => key_of(alloc, 0, &[u32::from(*positive), *left, *right]),
            DraftNode::Atom { positive, row } => key_of(alloc, 1, &[u32::from(*positive), *row]),
            DraftNode::And { parts } => key_of(alloc, 2, parts.as_slice()),
            DraftNode::Or { parts } => key_of(alloc, 3, parts.as_slice()),
            DraftNode::Forall { index } => key_of(alloc, 4, &[*index]),
        }
    }
}
