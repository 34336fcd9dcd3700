//! Claims in order, each once.
ghost use Rattle.std.specs.Prelude.{◌≡◌, ◌≢◌, ◌<◌, [], length, slice_get, AllPairs, OnOk, Some};
ghost use Rattle.match_paths.specs.Climbing.{PutsIn};

use crate::claim_key::ClaimKey;
use graph_meaning::Claim;
use graph_terms::Memory;
use indexmap::IndexSet;
use std::alloc::Global;
use std::marker::Model;

/// Claims in the order in which they came, each once. Contracts see a list.
#[derive(Drop)]
pub struct Claims {
    keys: IndexSet<ClaimKey>,
}

impl Model for Claims {
    ghost use Rattle.std.specs.Prelude.{List};
    ghost use Rattle.graph_meaning.specs.declared.claim.Claim.{Claim};
    ghost use Rattle.match_paths.specs.Claims.{claims_of};

    ghost Value = { List Claim };

    ghost view = { λ list. claims_of list.keys.keys };
}

impl Claims {
    /// No claims.
    pub fn new(alloc: Global) -> Claims
        ensures { result ≡ [] }
    {
        Claims {
            keys: IndexSet::new(alloc),
        }
    }

    /// How many claims there are.
    pub fn len(&self) -> usize
        ensures value { result ≡ length self.now }
        ensures each_once { AllPairs (λ a b. a ≢ b) self.now }
    {
        self.keys.len()
    }

    /// The claim at the place `i`, counted from 0. The caller sees that it is below `len()`.
    pub fn at(&self, i: usize) -> Claim
        requires { i < length self.now }
        ensures { slice_get self.now i ≡ Some result }
    {
        match self.keys.get_index(i) {
            Some(key) => Claim {
                trigger: key.trigger,
                start: key.start,
                root: key.root,
            },
            None => unreachable!(),
        }
    }

    /// Puts a claim last, where it is not there yet. `Memory` comes where memory is refused.
    pub fn put(&mut self, claim: Claim) -> Result<(), Memory>
        ensures { OnOk result (PutsIn self.old self.new claim) }
    {
        self.keys.insert(ClaimKey {
            trigger: claim.trigger,
            start: claim.start,
            root: claim.root,
        })?;
        Ok(())
    }
}
