//! Why words have no answer.
ghost use Rattle.std.specs.Prelude.{◌≡◌};

use std::alloc::AllocError;
use thiserror::Error;

/// Why the words of the command line have no answer.
#[derive(Clone, Copy, Debug, PartialEq, Eq, Error)]
pub enum WordsFault {
    /// The words are not of the form.
    #[error("words refused")]
    Refused,
    /// Memory was refused.
    #[error("no memory")]
    Memory,
}

impl From<AllocError> for WordsFault {
    ghost use Rattle.em_words.specs.declared.fault.WordsFault.TheVariants.{Memory};

    ghost from_gives = { λ _ fault. fault ≡ Memory };

    fn from(_refused: AllocError) -> WordsFault {
        WordsFault::Memory
    }
}
