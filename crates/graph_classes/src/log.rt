//! The operations that stand, in order.
ghost use Rattle.std.specs.Prelude.{◌≡◌, ◌<◌, ◌^◌, [], ◌∷◌, ◌++◌, length, take, ◌-◌, slice_get, IfSome, OnOk, OnErr};
ghost use Rattle.std.specs.Option.{option_copied};

use graph_meaning::Done;
use graph_terms::Memory;
use std::alloc::Global;
use std::marker::Model;

/// A list of operations with their serial numbers.
#[derive(Drop)]
pub struct Log {
    entries: Vec<Done>,
}

impl Model for Log {
    ghost use Rattle.std.specs.Prelude.{List, ◌<◌, ◌^◌, length};
    ghost use Rattle.graph_meaning.specs.declared.done.Done.{Done};

    ghost Value = { List Done };

    ghost view = { λ log. log.entries.items };

    ghost invariant = { λ log. length log.entries.items < 2 ^ 32 };
}

impl Log {
    /// A list without operations.
    pub fn new(alloc: Global) -> Log
        ensures { result ≡ [] }
    {
        Log {
            entries: Vec::new(alloc),
        }
    }

    /// The number of operations.
    pub fn len(&self) -> u32
        ensures { result ≡ length self.now }
    {
        self.entries.len() as u32
    }

    /// The k-th operation, counted from 0.
    pub fn get(&self, k: usize) -> Option<&Done>
        ensures { option_copied result ≡ slice_get self.now k }
    {
        self.entries.get(k)
    }

    /// Puts an operation last.
    pub fn push(&mut self, done: Done) -> Result<(), Memory>
        ensures ok { OnOk result (self.new ≡ self.old ++ done ∷ []) }
        ensures err { OnErr result (self.new ≡ self.old) }
    {
        if self.entries.len() >= u32::MAX as usize {
            return Err(Memory);
        }
        self.entries.push(done)?;
        Ok(())
    }

    /// Takes the last operation off, if there is one.
    pub fn shorten(&mut self)
        ensures { self.new ≡ take (length self.old - 1) self.old }
    {
        let _done = self.entries.pop();
    }
}
