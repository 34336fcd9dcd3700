//! Why a step stopped.
ghost use Rattle.std.specs.Prelude.{◌≡◌, []};
ghost use Rattle.smt_names.specs.Makes.{StopsWith};

use crate::refusal::Refusal;
use crate::syntax_fault::SyntaxFault;
use graph_terms::{Memory, Name};
use smt_text::Place;
use std::alloc::{AllocError, AllocFailed, Global};
use thiserror::Error;

/// Why a step stopped.
#[derive(Debug, Drop, Error)]
pub enum Stop {
    /// Memory was refused.
    #[error("no memory")]
    Memory,
    /// The command is refused.
    #[error(transparent)]
    Refused(SyntaxFault),
}

impl From<Memory> for Stop {
    ghost use Rattle.smt_names.specs.declared.stop.Stop.{Stop};

    ghost from_gives = { λ _ stop. stop ≡ Stop.Memory };

    fn from(_memory: Memory) -> Stop {
        Stop::Memory
    }
}

impl From<AllocError> for Stop {
    ghost use Rattle.smt_names.specs.declared.stop.Stop.{Stop};

    ghost from_gives = { λ _ stop. stop ≡ Stop.Memory };

    fn from(_refused: AllocError) -> Stop {
        Stop::Memory
    }
}

impl<T: Drop> From<AllocFailed<T>> for Stop {
    ghost use Rattle.smt_names.specs.declared.stop.Stop.{Stop};

    ghost from_gives = { λ _ stop. stop ≡ Stop.Memory };

    fn from(_refused: AllocFailed<T>) -> Stop {
        Stop::Memory
    }
}

impl Stop {
    /// A refusal that speaks of a name.
    pub fn of_name(alloc: Global, refusal: Refusal, place: Place, name: &[u8]) -> Stop
        ensures { StopsWith result (record { refusal = refusal; place = place; name = name.now }) }
    {
        match Name::from_slice(alloc, name) {
            Ok(name) => Stop::Refused(SyntaxFault {
                refusal,
                place,
                name,
            }),
            Err(_) => Stop::Memory,
        }
    }

    /// A refusal that speaks of no name.
    pub fn at(alloc: Global, refusal: Refusal, place: Place) -> Stop
        ensures { StopsWith result (record { refusal = refusal; place = place; name = [] }) }
    {
        Stop::of_name(alloc, refusal, place, &[])
    }
}
