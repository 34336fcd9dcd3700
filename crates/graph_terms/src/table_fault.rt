//! Why a table did not take a row.
ghost use Rattle.std.specs.Prelude.{◌≡◌};

use crate::memory::Memory;
use std::alloc::AllocError;
use thiserror::Error;

/// Why a table did not take a row.
#[derive(Clone, Copy, Debug, PartialEq, Eq, Error)]
pub enum TableFault {
    /// The row is new, and as many rows stand as may.
    #[error("the row is new, and as many rows stand as may")]
    Full,
    /// Memory was refused, or a count would have passed the greatest number of its type.
    #[error("memory was refused, or a count would have passed the greatest number of its type")]
    Memory,
}

// For `?` on a call that only wants memory.
impl From<Memory> for TableFault {
    ghost use Rattle.graph_terms.specs.declared.table_fault.TableFault.{TableFault};

    ghost from_gives = { λ _ fault. fault ≡ TableFault.Memory };

    fn from(_memory: Memory) -> TableFault {
        TableFault::Memory
    }
}

impl From<AllocError> for TableFault {
    ghost use Rattle.graph_terms.specs.declared.table_fault.TableFault.{TableFault};

    ghost from_gives = { λ _ fault. fault ≡ TableFault.Memory };

    fn from(_refused: AllocError) -> TableFault {
        TableFault::Memory
    }
}
