//! The notes of the changes of one value.
ghost use Rattle.std.specs.Prelude.{◌≡◌, ◌≤◌, [], ◌∷◌, ◌++◌, length, drop, take, OnOk, OnErr, IfErr};
ghost use Rattle.graph_trail.specs.Undo.{state_before, EachNoted, EachCanBeUndone};

use crate::note_refused::NoteRefused;
use crate::undoable::Undoable;
use std::alloc::Global;
use std::marker::Model;

/// The notes of the changes of a value, in the order in which the changes were made.
#[derive(Drop)]
pub struct Trail<T: Undoable> {
    notes: Vec<T::Note>,
}

impl<T: Undoable> Model for Trail<T> {
    ghost use Rattle.std.specs.Prelude.{List};

    ghost Value = { List T.Note };

    ghost view = { λ trail. trail.notes.items };
}

impl<T: Undoable> Trail<T> {
    /// A trail without notes. Takes no memory.
    pub fn new(alloc: Global) -> Self
        ensures { result ≡ [] }
    {
        Trail {
            notes: Vec::new(alloc),
        }
    }

    /// The number of notes, which names this point of the trail.
    pub fn mark(&self) -> u64
        ensures { result ≡ length self.now }
    {
        self.notes.len() as u64
    }

    /// Keeps the note of a change. A refusal is want of memory, and hands the note back.
    pub fn note(&mut self, note: T::Note) -> Result<(), NoteRefused<T::Note>>
        ensures noted { OnOk result (self.new ≡ self.old ++ note ∷ []) }
        ensures same { OnErr result (self.new ≡ self.old) }
        ensures returned { IfErr result (λ refused. refused.note ≡ note) }
    {
        match self.notes.push(note) {
            Ok(()) => Ok(()),
            Err(refused) => Err(NoteRefused {
                note: refused.value,
            }),
        }
    }

    /// Undoes the notes past the mark, the last first. It takes no memory.
    pub fn back_to_mark(&mut self, value: &mut T, mark: u64)
        requires mark { mark ≤ length self.old }
        requires room { EachCanBeUndone T.can_undo T.undo_leaves value.old (drop mark self.old) }
        ensures kept { self.new ≡ take mark self.old }
        ensures gives { T.state value.new ≡ state_before T.before (drop mark self.old) (T.state value.old) }
        ensures stood { (stood : T.State) → EachNoted T.before stood (drop mark self.old) (T.state value.old) → T.state value.new ≡ stood }
    {
        while self.notes.len() as u64 > mark {
            if let Some(note) = self.notes.pop() {
                value.undo(note);
            }
        }
    }
}
