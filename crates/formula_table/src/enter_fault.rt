//! Why a formula was not entered.
ghost use Rattle.std.specs.Prelude.{◌≡◌};

use graph_terms::{Memory, TableFault};
use thiserror::Error;

/// Why a formula was not entered.
#[derive(Clone, Copy, Debug, PartialEq, Eq, Error)]
pub enum EnterFault {
    /// The next term is new, and as many terms stand as may.
    #[error("there are as many terms as there may be")]
    TermsFull,
    /// The next node is new, and as many nodes stand as may.
    #[error("there are as many nodes as there may be")]
    NodesFull,
    /// Memory was refused.
    #[error("no memory to enter the formula")]
    Memory,
}

// For `?` on a call that only wants memory.
impl From<Memory> for EnterFault {
    ghost use Rattle.formula_table.specs.declared.enter_fault.EnterFault.{EnterFault};

    ghost from_gives = { λ _ fault. fault ≡ EnterFault.Memory };

    fn from(_memory: Memory) -> EnterFault {
        EnterFault::Memory
    }
}

// For `?` on a call that adds a term.
impl From<TableFault> for EnterFault {
    ghost use Rattle.formula_table.specs.EnterFault.{entry_fault};

    ghost from_gives = { λ from fault. fault ≡ entry_fault from };

    fn from(fault: TableFault) -> EnterFault {
        match fault {
            TableFault::Full => EnterFault::TermsFull,
            TableFault::Memory => EnterFault::Memory,
        }
    }
}
