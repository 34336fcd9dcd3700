//! The faults that bytes can have as a script.
ghost use Rattle.std.specs.Prelude.{◌≡◌};
ghost use Rattle.smt_text.specs.ByteFault.{place_of, text_fault};

use crate::{Place, TextFault};
use thiserror::Error;

/// Why bytes are no script, and at which byte. The lowest byte decides which fault is first.
#[derive(Clone, Copy, Debug, PartialEq, Eq, Error)]
pub enum ByteFault {
    /// The byte may not stand here inside a command.
    #[error("{place}: byte not allowed here")]
    BadByte { place: Place },
    /// The bytes end inside the command that opens here.
    #[error("{place}: the command is not closed")]
    Unclosed { place: Place },
    /// The byte may not stand here between two commands.
    #[error("{place}: a command must begin with (")]
    Stray { place: Place },
    /// More parentheses would be open than the limit allows.
    #[error("{place}: too many open parentheses")]
    TooDeep { place: Place },
    /// This is the first byte past the limit. On one byte it goes before the other faults.
    #[error("{place}: the script is too long")]
    TooLong { place: Place },
}

impl ByteFault {
    /// Where the fault is.
    pub fn place(&self) -> Place
        ensures { result ≡ place_of self.now }
    {
        match self {
            ByteFault::BadByte { place }
            | ByteFault::Unclosed { place }
            | ByteFault::Stray { place }
            | ByteFault::TooDeep { place }
            | ByteFault::TooLong { place } => *place,
        }
    }
    /// The same as a reader answers it.
    pub(crate) fn text_fault(self) -> TextFault
        ensures { result ≡ text_fault self }
    {
        match self {
            ByteFault::BadByte { place } => TextFault::BadByte { place },
            ByteFault::Unclosed { place } => TextFault::Unclosed { place },
            ByteFault::Stray { place } => TextFault::Stray { place },
            ByteFault::TooDeep { place } => TextFault::TooDeep { place },
            ByteFault::TooLong { place } => TextFault::TooLong { place },
        }
    }
}
