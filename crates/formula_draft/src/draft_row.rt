//! A row of a formula.
ghost use Rattle.std.specs.Prelude.{◌≡◌, IfOk};
ghost use Rattle.formula_draft.specs.DraftRow.{row_key};

use crate::items::key_of;
use graph_terms::{Memory, Numbers};
use std::alloc::Global;

/// A variable, or a symbol over earlier rows. A row stands for the term that it unfolds to.
#[derive(Debug, Drop)]
pub enum DraftRow {
    /// The variable with this index.
    Var { index: u32 },
    /// The symbol, applied to the terms of these rows.
    App { symbol: u32, args: Numbers },
}

impl DraftRow {
    /// An equal row.
    pub fn copy(&self, alloc: Global) -> Result<DraftRow, Memory>
        ensures { IfOk result (λ row. row ≡ self.now) }
    {
        match self {
            DraftRow::Var { index } => Ok(DraftRow::Var { index: *index }),
            DraftRow::App { symbol, args } => {
                let args = args.copy(alloc)?;
                Ok(DraftRow::App {
                    symbol: *symbol,
                    args,
                })
            }
        }
    }

    /// The numbers that tell the row from every other.
    pub(crate) fn key(&self, alloc: Global) -> Result<Vec<u32>, Memory>
        ensures { IfOk result (λ key. key.items ≡ row_key self.now) }
    {
        match self {
            DraftRow::Var { index } => key_of(alloc, 0, &[*index]),
            DraftRow::App { symbol, args } => {
                let mut key = key_of(alloc, 1, &[*symbol])?;
                key.extend_from_slice(args.as_slice())?;
                Ok(key)
            }
        }
    }
}
