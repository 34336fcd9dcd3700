//! A list of rows of terms, which contracts see as a list.
ghost use Rattle.std.specs.Prelude.{◌≡◌, ◌<◌, ◌++◌, [], ◌∷◌, length, slice_get, OnOk, OnErr};

use crate::memory::Memory;
use crate::term_row::TermRow;
use std::alloc::Global;
use std::marker::Model;

/// A list of at most `u32::MAX` rows of terms.
#[derive(Debug, Drop)]
pub struct TermRows {
    rows: Vec<TermRow>,
}

impl Model for TermRows {
    ghost use Rattle.std.specs.Prelude.{List, ◌<◌, ◌^◌, vec_len};
    ghost use Rattle.graph_terms.specs.declared.term_row.TermRow.{TermRow};

    ghost Value = { List TermRow };

    ghost view = { λ list. list.rows.items };

    ghost invariant = { λ list. vec_len list.rows < 2 ^ 32 };
}

impl TermRows {
    /// A list without rows. Takes no memory.
    pub fn new(alloc: Global) -> TermRows
        ensures { result ≡ [] }
    {
        TermRows {
            rows: Vec::new(alloc),
        }
    }

    /// Puts one row more at the end. `Memory` comes where memory is refused or the list is full; it is then as before.
    pub fn push(&mut self, row: TermRow) -> Result<(), Memory>
        ensures ok { OnOk result (self.new ≡ self.old ++ row ∷ []) }
        ensures err { OnErr result (self.new ≡ self.old) }
    {
        if self.rows.len() >= u32::MAX as usize {
            return Err(Memory);
        }
        self.rows.push(row)?;
        Ok(())
    }

    /// How many rows it has: at most `u32::MAX`.
    pub fn len(&self) -> u32
        ensures { result ≡ length self.now }
    {
        self.rows.len() as u32
    }

    /// The row at the place `i`, counted from 0. The caller sees that it is below `len()`.
    pub fn get(&self, i: u32) -> &TermRow
        requires { i < length self.now }
        ensures { slice_get self.now i ≡ Some result.now }
    {
        &self.rows[i as usize]
    }
}
