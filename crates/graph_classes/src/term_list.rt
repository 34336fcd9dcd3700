//! A list of terms in no order, which grows and shrinks at its end.
ghost use Rattle.std.specs.Prelude.{◌≡◌, ◌<◌, [], ◌∷◌, ◌++◌, length, take, ◌-◌, slice_index, OnOk, OnErr};

use graph_terms::Memory;
use smallvec::SmallVec;
use std::alloc::Global;
use std::marker::Model;

/// A list of terms. Up to four are kept in the value itself.
#[derive(Drop)]
pub struct TermList {
    items: SmallVec<u32, 4>,
}

impl Model for TermList {
    ghost use Rattle.std.specs.Prelude.{ℕ, List};

    ghost Value = { List ℕ };

    ghost view = { λ list. list.items.items };
}

impl TermList {
    /// A list without terms.
    pub fn new(alloc: Global) -> TermList
        ensures { result ≡ [] }
    {
        TermList {
            items: SmallVec::new(alloc),
        }
    }

    pub fn len(&self) -> usize
        ensures { result ≡ length self.now }
    {
        self.items.len()
    }

    /// The i-th term, counted from 0.
    pub fn get(&self, i: usize) -> u32
        requires { i < length self.now }
        ensures { result ≡ slice_index self.now i }
    {
        self.items.as_slice()[i]
    }

    /// Puts a term last.
    pub fn push(&mut self, term: u32) -> Result<(), Memory>
        ensures ok { OnOk result (self.new ≡ self.old ++ term ∷ []) }
        ensures err { OnErr result (self.new ≡ self.old) }
    {
        self.items.push(term)?;
        Ok(())
    }

    /// Takes the last term off, if there is one.
    pub fn shorten(&mut self)
        ensures { self.new ≡ take (length self.old - 1) self.old }
    {
        let _term = self.items.pop();
    }
}
