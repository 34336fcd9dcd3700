//! Nodes that are entered over earlier ones.
ghost use Rattle.std.specs.Prelude.{◌≡◌, ◌<◌, ◌+◌, ◌^◌, ◌++◌, ◌∷◌, [], length, All, IfOk, OnOk, OnErr};
ghost use Rattle.formula_truth.specs.declared.truth.Truth.TheVariants.{Unset};
ghost use Rattle.search_board.specs.Board.{with_node, AreAligned};
ghost use Rattle.search_board.specs.Values.{value_of};
ghost use Rattle.search_values.specs.Settled.{told_by};
ghost use Rattle.search_values.specs.History.{now, KeepsHistory};
ghost use Rattle.search_values.specs.KeptInside.{IsRight};
ghost use Rattle.search_values.specs.GivenBy.{given_by};
ghost use Rattle.search_values.specs.Changes.{EntersNode};
ghost use Rattle.search_values.specs.Entered.{ArePlaces, NoneStruck};

use crate::noted::Noted;
use crate::value::value_at;
use crate::wiring::Wiring;
use formula_truth::Truth;
use search_board::{Board, Kind, Place};
use search_list::ShortList;
use std::alloc::{AllocError, Global};

/// Places that tell what these parts are.
fn told_places(
    alloc: Global,
    board: &Board,
    parts: &ShortList<u32>,
) -> Result<ShortList<Place>, AllocError>
    requires { All (λ part. part < length board.now.kinds) parts.now }
    ensures told { IfOk result (λ places. ArePlaces board.now parts.now places) }
    ensures none_struck { IfOk result (λ places. NoneStruck places) }
{
    let mut places = ShortList::new(alloc);
    for i in 0..parts.len() {
        let part = parts.get(i);
        places.push(Place {
            told: board.truth(part),
            taken: board.asserted(part),
            struck: false,
        })?;
    }
    Ok(places)
}

impl Noted {
    /// Enters a node, which isn't asserted, with the value that its places tell. Without memory the node may be entered.
    fn enter_told(
        &mut self,
        alloc: Global,
        kind: Kind,
        places: ShortList<Place>,
    ) -> Result<(), AllocError>
        ensures aligned { AreAligned (now self.old) }
        ensures few { length places < 2 ^ 32 }
        ensures ok { OnOk result (now self.new ≡ with_node (now self.old) kind (value_of kind (told_by places) Unset) places) }
        ensures history { KeepsHistory self.old self.new }
    {
        let n = self.board.len();
        self.enter(alloc, kind, Truth::Unset, places)?;
        let value = value_at(&self.board, n);
        self.set_truth(n, value)?;
        Ok(())
    }

    /// Enters a node over earlier parts. Without memory a part may be done of the board, and nothing of the wiring.
    pub(crate) fn try_node(
        &mut self,
        alloc: Global,
        wiring: &mut Wiring,
        kind: Kind,
        parts: ShortList<u32>,
    ) -> Result<(), AllocError>
        requires right { IsRight wiring.old (now self.old) }
        requires earlier { All (λ part. part < length (now self.old).kinds) parts }
        requires few { length (now self.old).kinds + 1 < 2 ^ 32 }
        ensures right { OnOk result (IsRight wiring.new (now self.new)) }
        ensures enters { OnOk result (EntersNode kind parts (given_by wiring.old.parts (now self.old)) (given_by wiring.new.parts (now self.new))) }
        ensures parts { OnOk result (wiring.new.parts ≡ wiring.old.parts ++ parts ∷ []) }
        ensures err { OnErr result (wiring.new ≡ wiring.old) }
        ensures history { KeepsHistory self.old self.new }
    {
        let places = told_places(alloc, &self.board, &parts)?;
        self.enter_told(alloc, kind, places)?;
        wiring.enter(alloc, parts)?;
        let _count = wiring.len();
        Ok(())
    }
}
