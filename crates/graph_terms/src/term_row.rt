//! A row of a table of terms.
ghost use Rattle.std.specs.Prelude.{◌≡◌, IfOk};

use crate::memory::Memory;
use crate::numbers::Numbers;
use std::alloc::Global;

/// What a term is: the number of its symbol, and the numbers of the terms that are its arguments, in order.
#[derive(Debug, Drop)]
pub struct TermRow {
    pub symbol: u32,
    pub args: Numbers,
}

impl TermRow {
    /// A row with the same symbol and arguments. `Memory` comes where memory is refused.
    pub fn copy(&self, alloc: Global) -> Result<TermRow, Memory>
        ensures { IfOk result (λ row. row ≡ self.now) }
    {
        let args = self.args.copy(alloc)?;
        Ok(TermRow {
            symbol: self.symbol,
            args,
        })
    }
}
