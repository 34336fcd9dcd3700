//! A row of patterns.
ghost use Rattle.std.specs.Prelude.{◌≡◌, IfOk};

use graph_terms::{Memory, Numbers};
use std::alloc::Global;

/// A variable, or a symbol over earlier rows of its list. A row stands for the pattern that it unfolds to.
#[derive(Debug, Drop)]
pub enum PatternRow {
    /// The variable with this index among those of its forall, counted from 0.
    Var { index: u32 },
    /// The symbol with this number, applied to the patterns of these rows, in order.
    App { symbol: u32, args: Numbers },
}

impl PatternRow {
    /// The same row. `Memory` comes where memory is refused.
    pub fn copy(&self, alloc: Global) -> Result<PatternRow, Memory>
        ensures { IfOk result (λ row. row ≡ self.now) }
    {
        match self {
            PatternRow::Var { index } => Ok(PatternRow::Var { index: *index }),
            PatternRow::App { symbol, args } => {
                let args = args.copy(alloc)?;
                Ok(PatternRow::App {
                    symbol: *symbol,
                    args,
                })
            }
        }
    }
}
