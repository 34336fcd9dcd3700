//! Undoing the changes of a value by a trail of notes, back to any mark that stands.
//!
//! A value tells how each of its changes is undone ([`Undoable`]). A [`Trail`] keeps the notes of
//! the changes in order; the number of notes is a mark, and the trail goes back to it.
#![tactic(auto)]

pub mod note_refused;
pub mod trail;
pub mod undoable;

pub use note_refused::NoteRefused;
pub use trail::Trail;
pub use undoable::Undoable;
