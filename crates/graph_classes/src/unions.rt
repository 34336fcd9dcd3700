//! The unions that an operation lists.
ghost use Rattle.std.specs.Prelude.{◌≡◌, ◌<◌, [], ◌∷◌, ◌++◌, length, slice_get, OnOk, OnErr};

use graph_meaning::Union;
use graph_terms::Memory;
use std::alloc::Global;
use std::marker::Model;

/// A list of unions.
#[derive(Debug, Drop)]
pub struct Unions {
    items: Vec<Union>,
}

impl Model for Unions {
    ghost use Rattle.std.specs.Prelude.{List, ◌<◌, ◌^◌, length};
    ghost use Rattle.graph_meaning.specs.declared.union.Union.{Union};

    ghost Value = { List Union };

    ghost view = { λ unions. unions.items.items };

    ghost invariant = { λ unions. length unions.items.items < 2 ^ 32 };
}

impl Unions {
    /// A list without unions.
    pub fn new(alloc: Global) -> Unions
        ensures { result ≡ [] }
    {
        Unions {
            items: Vec::new(alloc),
        }
    }

    /// Puts a union last.
    pub fn push(&mut self, union: Union) -> Result<(), Memory>
        ensures ok { OnOk result (self.new ≡ self.old ++ union ∷ []) }
        ensures err { OnErr result (self.new ≡ self.old) }
    {
        if self.items.len() >= u32::MAX as usize {
            return Err(Memory);
        }
        self.items.push(union)?;
        Ok(())
    }

    /// The number of unions.
    pub fn len(&self) -> u32
        ensures { result ≡ length self.now }
    {
        self.items.len() as u32
    }

    /// The i-th union, counted from 0.
    pub fn get(&self, i: u32) -> &Union
        requires { i < length self.now }
        ensures { slice_get self.now i ≡ Some result.now }
    {
        &self.items[i as usize]
    }
}
