//! How the changes of a board are undone.
ghost use Rattle.std.specs.Prelude.{◌≡◌};
ghost use Rattle.search_board.specs.Undo.{before_change};

use crate::board::Board;
use crate::change::Change;
use graph_trail::Undoable;

impl Undoable for Board {
    ghost use Rattle.search_board.specs.Board.{Shown};
    ghost use Rattle.search_board.specs.Undo.{before_change, Undone, undone_gives_before};

    type Note = Change;

    ghost State = { Shown };

    ghost state = { λ board. board };

    ghost before = { before_change };

    ghost can_undo = { λ _ _. Unit {0} };

    ghost undo_leaves = { Undone };

    ghost undo_gives_before = { undone_gives_before };

    fn undo(&mut self, note: Change) {
        match note {
            Change::Entered => {
                if self.len() > 0 {
                    self.drop_last();
                }
            }
            Change::Valued { n, old } => {
                if n < self.len() {
                    self.set_truth(n, old);
                }
            }
            Change::Asserted { n, old } => {
                if n < self.len() {
                    self.set_asserted(n, old);
                }
            }
            Change::Told { n, i, old } => {
                if n < self.len() {
                    if i < self.places(n) {
                        self.set_place(n, i, old);
                    }
                }
            }
        }
    }
}
