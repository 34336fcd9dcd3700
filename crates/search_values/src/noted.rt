//! A board with the trail of its changes.
ghost use Rattle.std.specs.Prelude.{◌≡◌, ◌<◌, ◌≤◌, length, take, ℕ, ◌++◌, ◌∷◌, [], OnOk, OnErr};
ghost use Rattle.search_board.specs.Board.{with_truth, with_asserted, with_place, places_at, with_node};
ghost use Rattle.search_values.specs.History.{now, notes, board_at, KeepsHistory};

use formula_truth::Truth;
use graph_trail::Trail;
use search_board::{Board, Change, Kind, Place};
use search_list::ShortList;
use std::alloc::{AllocError, Global};

/// A board with the trail of its changes.
#[derive(Drop)]
pub struct Noted {
    pub board: Board,
    pub trail: Trail<Board>,
}

impl Noted {
    /// Undoes what came past the mark. Takes no memory.
    pub fn back_to(&mut self, mark: u64)
        requires { mark ≤ length (notes self.old) }
        ensures gives { now self.new ≡ board_at self.old mark }
        ensures kept { notes self.new ≡ take mark (notes self.old) }
        ensures at { (m : ℕ) → m ≤ mark → board_at self.new m ≡ board_at self.old m }
    {
        self.trail.back_to_mark(&mut self.board, mark);
    }

    /// Keeps the note of a change that is about to be made.
    fn keep(&mut self, change: Change) -> Result<(), AllocError>
        ensures board { now self.new ≡ now self.old }
        ensures ok { OnOk result (notes self.new ≡ notes self.old ++ change ∷ []) }
        ensures err { OnErr result (notes self.new ≡ notes self.old) }
    {
        match self.trail.note(change) {
            Ok(()) => Ok(()),
            Err(_refused) => Err(AllocError),
        }
    }

    /// Enters a node, which isn't asserted. A refusal is want of memory or of room, and all is as before then.
    pub fn enter(
        &mut self,
        alloc: Global,
        kind: Kind,
        truth: Truth,
        places: ShortList<Place>,
    ) -> Result<(), AllocError>
        ensures ok { OnOk result (now self.new ≡ with_node (now self.old) kind truth places) }
        ensures err { OnErr result (now self.new ≡ now self.old) }
        ensures history { KeepsHistory self.old self.new }
    {
        let _count = self.board.len();
        self.board.enter(alloc, kind, truth, places)?;
        match self.trail.note(Change::Entered) {
            Ok(()) => Ok(()),
            Err(_refused) => {
                self.board.drop_last();
                Err(AllocError)
            }
        }
    }

    /// Gives a node a value. A refusal is want of memory, and all is as before then.
    pub fn set_truth(&mut self, n: u32, truth: Truth) -> Result<(), AllocError>
        requires { n < length (now self.old).kinds }
        ensures ok { OnOk result (now self.new ≡ with_truth (now self.old) n truth) }
        ensures err { OnErr result (now self.new ≡ now self.old) }
        ensures history { KeepsHistory self.old self.new }
    {
        let old = self.board.truth(n);
        self.keep(Change::Valued { n, old })?;
        self.board.set_truth(n, truth);
        Ok(())
    }

    /// Says whether a node is asserted. A refusal is want of memory, and all is as before then.
    pub fn set_asserted(&mut self, n: u32, asserted: bool) -> Result<(), AllocError>
        requires { n < length (now self.old).kinds }
        ensures ok { OnOk result (now self.new ≡ with_asserted (now self.old) n asserted) }
        ensures err { OnErr result (now self.new ≡ now self.old) }
        ensures history { KeepsHistory self.old self.new }
    {
        let old = self.board.asserted(n);
        self.keep(Change::Asserted { n, old })?;
        self.board.set_asserted(n, asserted);
        Ok(())
    }

    /// Changes a place of a node. A refusal is want of memory, and all is as before then.
    pub fn set_place(&mut self, n: u32, i: u32, place: Place) -> Result<(), AllocError>
        requires node { n < length (now self.old).kinds }
        requires place { i < length (places_at (now self.old) n) }
        ensures ok { OnOk result (now self.new ≡ with_place (now self.old) n i place) }
        ensures err { OnErr result (now self.new ≡ now self.old) }
        ensures history { KeepsHistory self.old self.new }
    {
        let old = self.board.place(n, i);
        self.keep(Change::Told { n, i, old })?;
        self.board.set_place(n, i, place);
        Ok(())
    }
}
