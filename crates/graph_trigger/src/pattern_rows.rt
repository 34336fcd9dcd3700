//! A list of pattern rows, which contracts see as a list.
ghost use Rattle.std.specs.Prelude.{◌≡◌, ◌<◌, ◌++◌, [], ◌∷◌, length, slice_get, IfOk, OnOk, OnErr};

use crate::pattern_row::PatternRow;
use graph_terms::Memory;
use std::alloc::Global;
use std::marker::Model;

/// A list of at most `u32::MAX` pattern rows.
#[derive(Debug, Drop)]
pub struct PatternRows {
    rows: Vec<PatternRow>,
}

impl Model for PatternRows {
    ghost use Rattle.std.specs.Prelude.{List, ◌<◌, ◌^◌, vec_len};
    ghost use Rattle.graph_trigger.specs.declared.pattern_row.PatternRow.{PatternRow};

    ghost Value = { List PatternRow };

    ghost view = { λ list. list.rows.items };

    ghost invariant = { λ list. vec_len list.rows < 2 ^ 32 };
}

impl PatternRows {
    /// A list without rows. Takes no memory.
    pub fn new(alloc: Global) -> PatternRows
        ensures { result ≡ [] }
    {
        PatternRows {
            rows: Vec::new(alloc),
        }
    }

    /// Puts one row more at the end. `Memory` comes where memory is refused or the list is full; it is then as before.
    pub fn push(&mut self, row: PatternRow) -> Result<(), Memory>
        ensures ok { OnOk result (self.new ≡ self.old ++ row ∷ []) }
        ensures err { OnErr result (self.new ≡ self.old) }
    {
        if self.rows.len() >= u32::MAX as usize {
            return Err(Memory);
        }
        self.rows.push(row)?;
        Ok(())
    }

    /// A list of the same rows. `Memory` comes where memory is refused.
    pub fn copy(&self, alloc: Global) -> Result<PatternRows, Memory>
        ensures { IfOk result (λ rows. rows ≡ self.now) }
    {
        let mut rows = PatternRows::new(alloc);
        for i in 0..self.len() {
            rows.push(self.get(i).copy(alloc)?)?;
        }
        Ok(rows)
    }

    /// How many rows it has: at most `u32::MAX`.
    pub fn len(&self) -> u32
        ensures { result ≡ length self.now }
    {
        self.rows.len() as u32
    }

    /// The row at the place `i`, counted from 0. The caller sees that it is below `len()`.
    pub fn get(&self, i: u32) -> &PatternRow
        requires { i < length self.now }
        ensures { slice_get self.now i ≡ Some result.now }
    {
        &self.rows[i as usize]
    }
}
