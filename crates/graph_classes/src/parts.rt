//! The parts of a graph that change together.
ghost use Rattle.std.specs.Prelude.{◌≡◌};
ghost use Rattle.graph_classes.specs.State.{state as state_of, before_change};
ghost use Rattle.graph_classes.specs.declared.change.Change.TheVariants.{Added as RowAdded};

use crate::change::Change;
use crate::lists::Lists;
use crate::log::Log;
use crate::signatures::Signatures;
use crate::term_list::TermList;
use graph_terms::TermTable;
use graph_trail::Undoable;

/// The terms, their classes and the operations that stand.
#[derive(Drop)]
pub struct Parts {
    /// The rows, by term.
    pub rows: TermTable,
    /// The label of each term: a term number, equal where the classes are.
    pub labels: Vec<u32>,
    /// The terms with a label, by label, in no order.
    pub members: Vec<TermList>,
    /// The terms with an argument that has a label, by label, in no order.
    pub uses: Vec<TermList>,
    /// The signatures that were met.
    pub table: Signatures,
    /// The least term with a label, by label.
    pub leaders: Vec<u32>,
    /// The lists that questions read.
    pub lists: Lists,
    /// The operations that stand.
    pub log: Log,
}

impl Undoable for Parts {
    ghost use Rattle.graph_classes.specs.State.{State, state as parts_state, before_change, UndoLeaves, undo_gives_before as parts_give_before};

    type Note = Change;

    ghost State = { State };

    ghost state = { parts_state };

    ghost before = { before_change };

    ghost can_undo = { λ _ _. Unit {0} };

    ghost undo_leaves = { UndoLeaves };

    ghost undo_gives_before = { parts_give_before };

    fn undo(&mut self, note: Change) {
        match note {
            Change::Added => self.drop_row(),
            Change::Labelled { term, old } => {
                if let Some(label) = self.labels.get_mut(term as usize) {
                    *label = old;
                }
            }
            Change::Joined { label } => {
                if let Some(list) = self.members.get_mut(label as usize) {
                    list.shorten();
                }
            }
            Change::Used { label } => {
                if let Some(list) = self.uses.get_mut(label as usize) {
                    list.shorten();
                }
            }
            Change::Signed => self.table.shorten(),
            Change::Led { label, old } => {
                if let Some(leader) = self.leaders.get_mut(label as usize) {
                    *leader = old;
                }
            }
            Change::Listed { place, at } => self.lists.leave(place, at),
            Change::Logged => self.log.shorten(),
        }
    }
}

impl Parts {
    /// Takes the last row away, with all that came with it. The first two rows stay.
    fn drop_row(&mut self)
        ensures { state_of self.new ≡ before_change (state_of self.old) RowAdded }
    {
        let len = self.rows.len();
        if len > 2 {
            self.rows.cut(len - 1);
        }
        let _label = self.labels.pop();
        let _members = self.members.pop();
        let _uses = self.uses.pop();
        let _leader = self.leaders.pop();
    }
}
