//! A list of claims.
ghost use Rattle.std.specs.Prelude.{◌≡◌, ◌<◌, ◌++◌, [], ◌∷◌, length, slice_get, Some, OnOk, OnErr};

use graph_meaning::Claim;
use graph_terms::Memory;
use std::alloc::Global;
use std::marker::Model;

/// A list of claims. Contracts see a list.
#[derive(Debug, Drop)]
pub struct ClaimList {
    items: Vec<Claim>,
}

impl Model for ClaimList {
    ghost use Rattle.std.specs.Prelude.{List};
    ghost use Rattle.graph_meaning.specs.declared.claim.Claim.{Claim};

    ghost Value = { List Claim };

    ghost view = { λ list. list.items.items };
}

impl ClaimList {
    /// No claims.
    pub fn new(alloc: Global) -> ClaimList
        ensures { result ≡ [] }
    {
        ClaimList {
            items: Vec::new(alloc),
        }
    }

    /// How many claims there are.
    pub fn len(&self) -> usize
        ensures { result ≡ length self.now }
    {
        self.items.len()
    }

    /// The claim at the place, counted from 0.
    pub fn at(&self, i: usize) -> Claim
        requires { i < length self.now }
        ensures { slice_get self.now i ≡ Some result }
    {
        self.items[i]
    }

    /// Puts one more last. `Memory` comes where memory is refused.
    pub fn push(&mut self, claim: Claim) -> Result<(), Memory>
        ensures ok { OnOk result (self.new ≡ self.old ++ claim ∷ []) }
        ensures err { OnErr result (self.new ≡ self.old) }
    {
        self.items.push(claim)?;
        Ok(())
    }
}
