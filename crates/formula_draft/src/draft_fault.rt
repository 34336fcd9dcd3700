//! Why a formula did not take a row, a node or a forall.
ghost use Rattle.std.specs.Prelude.{◌≡◌};

use graph_terms::Memory;
use thiserror::Error;

/// Why a formula did not take a row, a node or a forall.
#[derive(Clone, Copy, Debug, PartialEq, Eq, Error)]
pub enum DraftFault {
    /// The row is new, and as many rows stand as may.
    #[error("the formula has as many rows as it may")]
    RowsFull,
    /// The node is new, and as many nodes stand as may.
    #[error("the formula has as many nodes as it may")]
    NodesFull,
    /// Memory was refused.
    #[error("no memory for the formula")]
    Memory,
}

// For `?` on a call that only wants memory.
impl From<Memory> for DraftFault {
    ghost use Rattle.formula_draft.specs.declared.draft_fault.DraftFault.{DraftFault};

    ghost from_gives = { λ _ fault. fault ≡ DraftFault.Memory };

    fn from(_memory: Memory) -> DraftFault {
        DraftFault::Memory
    }
}
