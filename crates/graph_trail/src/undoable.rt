//! Values whose changes can be undone.
ghost use Rattle.std.specs.Prelude.{◌≡◌};

/// A value whose changes can be undone, each by its note.
pub trait Undoable {
    /// Tells what undoes one change.
    type Note: Drop;

    /// The type of what the value is seen as, which undoing brings back.
    ghost State: { Type 0 };

    /// What the value is seen as. Spare room, and the order inside maps, are no part of it.
    ghost state: { Self → State };

    /// The state before the change that the note stands for, from the state after it.
    ghost before: { State → Self.Note → State };

    /// The room which undoing the note needs is there.
    ghost can_undo: { Self → Self.Note → Type 0 };

    /// What undoing the note leaves, room included.
    ghost undo_leaves: { Self → Self.Note → Self → Type 0 };

    /// Undoes the change that the note stands for. It takes no memory.
    fn undo(&mut self, note: Self::Note)
        requires { can_undo self.old note }
        ensures { undo_leaves self.old note self.new };

    // Undoing the note of a change gives the state before the change.
    ghost undo_gives_before: { (after : Self) (note : Self.Note) (undone : Self) → undo_leaves after note undone → state undone ≡ before (state after) note };
}
