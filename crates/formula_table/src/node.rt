//! A node of the table of formulas.
ghost use Rattle.std.specs.Prelude.{◌≡◌, IfOk};
ghost use Rattle.formula_table.specs.Node.{entered_key};

use formula_draft::items::key_of;
use graph_terms::{Memory, Numbers};
use std::alloc::Global;

/// A literal over terms, a connective over earlier nodes, or a forall. A node stands for the formula that it unfolds to.
#[derive(Debug, Drop)]
pub enum Node {
    /// The two terms are equal, or, where not positive, they differ. The left term is not above the right.
    Equal {
        positive: bool,
        left: u32,
        right: u32,
    },
    /// The term is true, or, where not positive, false.
    Atom {
        positive: bool,
        term: u32,
    },
    /// Each part is true.
    And {
        parts: Numbers,
    },
    /// Some part is true.
    Or {
        parts: Numbers,
    },
    /// The forall with this number.
    Forall {
        forall: u32,
    },
}

impl Node {
    /// The numbers that tell the node from every other.
    pub(crate) fn key(&self, alloc: Global) -> Result<Vec<u32>, Memory>
        ensures { IfOk result (λ key. key.items ≡ entered_key self.now) }
    {
        match self {
            Node::Equal {
                positive,
                left,
                right,
            } => key_of(alloc, 0, &[u32::from(*positive), *left, *right]),
            Node::Atom { positive, term } => key_of(alloc, 1, &[u32::from(*positive), *term]),
            Node::And { parts } => key_of(alloc, 2, parts.as_slice()),
            Node::Or { parts } => key_of(alloc, 3, parts.as_slice()),
            Node::Forall { forall } => key_of(alloc, 4, &[*forall]),
        }
    }
}
