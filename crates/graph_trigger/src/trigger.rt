//! Triggers, and when one is valid.
ghost use Rattle.std.specs.Prelude.{◌≡◌, ◌≤◌, ◌↔◌, IfOk, IsTrue, length};

use crate::pattern_rows::PatternRows;
use crate::validity::{
    MOST_PATTERNS, MOST_VARIABLES, are_applications, are_new, are_reached, are_small, fit_rows,
    have_variables,
};
use graph_terms::{Memory, Numbers};
use std::alloc::Global;

/// The patterns of one trigger of a forall: those that `roots` name, in order.
#[derive(Debug, Drop)]
pub struct Trigger {
    /// The number of its forall.
    pub forall: u32,
    /// Its place among the triggers of its forall, counted from 0.
    pub place: u32,
    /// How many variables its forall has; a valid trigger has each of them.
    pub variables: u32,
    /// The rows of all its patterns.
    pub rows: PatternRows,
    /// The numbers of the rows that are whole patterns, in order.
    pub roots: Numbers,
}

impl Trigger {
    ghost use Rattle.graph_trigger.specs.Trigger.{IsValid};

    /// Whether the trigger keeps to the rules: rows name earlier rows or a variable that there is, no row stands twice,
    /// each is reached from a root, roots are 1 to 16 applications of at most 256 symbols and variables each, counted
    /// as trees, and exactly the variables below `variables`, at most 32, occur. Takes no memory.
    pub fn valid(&self) -> bool
        ensures { IsTrue result ↔ IsValid self.now }
    {
        if self.variables > MOST_VARIABLES
            || self.roots.len() < 1
            || self.roots.len() > MOST_PATTERNS
        {
            return false;
        }
        if !fit_rows(&self.rows, self.variables) {
            return false;
        }
        if !are_new(&self.rows) {
            return false;
        }
        if !are_applications(&self.rows, &self.roots) {
            return false;
        }
        if !are_reached(&self.rows, &self.roots) {
            return false;
        }
        if !have_variables(&self.rows, self.variables) {
            return false;
        }
        are_small(&self.rows, &self.roots)
    }

    /// The same trigger. `Memory` comes where memory is refused.
    pub fn copy(&self, alloc: Global) -> Result<Trigger, Memory>
        ensures { IfOk result (λ trigger. trigger ≡ self.now) }
    {
        let rows = self.rows.copy(alloc)?;
        let roots = self.roots.copy(alloc)?;
        Ok(Trigger {
            forall: self.forall,
            place: self.place,
            variables: self.variables,
            rows,
            roots,
        })
    }
}
