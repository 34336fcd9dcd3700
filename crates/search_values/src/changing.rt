//! The changes that come from outside, each with all that follows. Without memory a part may be done.
ghost use Rattle.std.specs.Prelude.{◌≡◌, ◌<◌, length, OnOk};
ghost use Rattle.formula_truth.specs.declared.truth.Truth.TheVariants.{Unset};
ghost use Rattle.search_board.specs.declared.kind.Kind.TheVariants.{Leaf};
ghost use Rattle.search_board.specs.Board.{kind_at, truth_at, places_at};
ghost use Rattle.search_values.specs.History.{now, KeepsHistory};
ghost use Rattle.search_values.specs.KeptInside.{IsRight};
ghost use Rattle.search_values.specs.GivenBy.{given_by};
ghost use Rattle.search_values.specs.Changes.{SetsLeaf, Asserts, Strikes};

use crate::noted::Noted;
use crate::wiring::Wiring;
use formula_truth::Truth;
use search_board::Place;
use std::alloc::{AllocError, Global};

impl Noted {
    /// Gives a leaf a value.
    pub(crate) fn try_leaf(
        &mut self,
        alloc: Global,
        wiring: &Wiring,
        n: u32,
        truth: Truth,
    ) -> Result<(), AllocError>
        requires right { IsRight wiring.now (now self.old) }
        requires stands { n < length (now self.old).kinds }
        requires leaf { kind_at (now self.old) n ≡ Leaf }
        requires unset { truth_at (now self.old) n ≡ Unset }
        ensures right { OnOk result (IsRight wiring.now (now self.new)) }
        ensures sets { OnOk result (SetsLeaf n truth (given_by wiring.now.parts (now self.old)) (given_by wiring.now.parts (now self.new))) }
        ensures history { KeepsHistory self.old self.new }
    {
        let mut work = Vec::new(alloc);
        work.push(n)?;
        self.set_truth(n, truth)?;
        self.settle(wiring, &mut work)?;
        Ok(())
    }

    /// Asserts a node, by itself.
    pub(crate) fn try_assert(
        &mut self,
        alloc: Global,
        wiring: &Wiring,
        n: u32,
    ) -> Result<(), AllocError>
        requires right { IsRight wiring.now (now self.old) }
        requires stands { n < length (now self.old).kinds }
        ensures right { OnOk result (IsRight wiring.now (now self.new)) }
        ensures asserts { OnOk result (Asserts n (given_by wiring.now.parts (now self.old)) (given_by wiring.now.parts (now self.new))) }
        ensures history { KeepsHistory self.old self.new }
    {
        let mut work = Vec::new(alloc);
        work.push(n)?;
        self.set_asserted(n, true)?;
        self.settle(wiring, &mut work)?;
        Ok(())
    }

    /// Strikes a place.
    pub(crate) fn try_strike(&mut self, wiring: &Wiring, n: u32, i: u32) -> Result<(), AllocError>
        requires right { IsRight wiring.now (now self.old) }
        requires stands { n < length (now self.old).kinds }
        requires place { i < length (places_at (now self.old) n) }
        ensures right { OnOk result (IsRight wiring.now (now self.new)) }
        ensures strikes { OnOk result (Strikes n i (given_by wiring.now.parts (now self.old)) (given_by wiring.now.parts (now self.new))) }
        ensures history { KeepsHistory self.old self.new }
    {
        let old = self.board.place(n, i);
        self.set_place(
            n,
            i,
            Place {
                told: old.told,
                taken: old.taken,
                struck: true,
            },
        )?;
        Ok(())
    }
}
