//! A list of triggers, which contracts see as a list.
ghost use Rattle.std.specs.Prelude.{◌≡◌, ◌<◌, ◌++◌, [], ◌∷◌, length, slice_get, OnOk, OnErr};

use crate::trigger::Trigger;
use graph_terms::Memory;
use std::alloc::Global;
use std::marker::Model;

/// A list of at most `u32::MAX` triggers.
#[derive(Debug, Drop)]
pub struct Triggers {
    triggers: Vec<Trigger>,
}

impl Model for Triggers {
    ghost use Rattle.std.specs.Prelude.{List, ◌<◌, ◌^◌, vec_len};
    ghost use Rattle.graph_trigger.specs.declared.trigger.Trigger.{Trigger};

    ghost Value = { List Trigger };

    ghost view = { λ list. list.triggers.items };

    ghost invariant = { λ list. vec_len list.triggers < 2 ^ 32 };
}

impl Triggers {
    /// A list without triggers. Takes no memory.
    pub fn new(alloc: Global) -> Triggers
        ensures { result ≡ [] }
    {
        Triggers {
            triggers: Vec::new(alloc),
        }
    }

    /// Puts one trigger more at the end. `Memory` comes where memory is refused or the list is full; it is then as before.
    pub fn push(&mut self, trigger: Trigger) -> Result<(), Memory>
        ensures ok { OnOk result (self.new ≡ self.old ++ trigger ∷ []) }
        ensures err { OnErr result (self.new ≡ self.old) }
    {
        if self.triggers.len() >= u32::MAX as usize {
            return Err(Memory);
        }
        self.triggers.push(trigger)?;
        Ok(())
    }

    /// How many triggers it has: at most `u32::MAX`.
    pub fn len(&self) -> u32
        ensures { result ≡ length self.now }
    {
        self.triggers.len() as u32
    }

    /// The trigger at the place `i`, counted from 0. The caller sees that it is below `len()`.
    pub fn get(&self, i: u32) -> &Trigger
        requires { i < length self.now }
        ensures { slice_get self.now i ≡ Some result.now }
    {
        &self.triggers[i as usize]
    }
}
