//! A note that found no memory.
use thiserror::Error;

/// Memory for the note was refused; the note comes back, so that its change can still be undone.
#[derive(Debug, Drop, Error)]
#[error("memory for a note was refused")]
pub struct NoteRefused<N> {
    /// The note that was to be kept.
    pub note: N,
}
