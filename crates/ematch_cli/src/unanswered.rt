//! Why a command gets no answer.
ghost use Rattle.std.specs.Prelude.{◌≡◌};

use graph_terms::Memory;
use std::alloc::{AllocError, AllocFailed};

/// Why a command gets no answer.
#[derive(Debug, Drop)]
pub(crate) enum Unanswered {
    /// It is refused, with this line.
    Refused { line: Vec<u8> },
    /// Memory was refused.
    Memory,
}

impl From<Memory> for Unanswered {
    ghost use Rattle.ematch_cli.specs.declared.unanswered.Unanswered.{Unanswered};

    ghost from_gives = { λ _ unanswered. unanswered ≡ Unanswered.Memory };

    fn from(_memory: Memory) -> Unanswered {
        Unanswered::Memory
    }
}

impl From<AllocError> for Unanswered {
    ghost use Rattle.ematch_cli.specs.declared.unanswered.Unanswered.{Unanswered};

    ghost from_gives = { λ _ unanswered. unanswered ≡ Unanswered.Memory };

    fn from(_refused: AllocError) -> Unanswered {
        Unanswered::Memory
    }
}

impl<T: Drop> From<AllocFailed<T>> for Unanswered {
    ghost use Rattle.ematch_cli.specs.declared.unanswered.Unanswered.{Unanswered};

    ghost from_gives = { λ _ unanswered. unanswered ≡ Unanswered.Memory };

    fn from(_refused: AllocFailed<T>) -> Unanswered {
        Unanswered::Memory
    }
}
