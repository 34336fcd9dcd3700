//! What stands at the front of some bytes.

use crate::Kind;

/// What stands at the front of some bytes of a script.
#[derive(Clone, Copy, Debug, PartialEq, Eq)]
pub enum Lexeme {
    /// White space or a comment, of so many bytes.
    Blank(usize),
    /// A token of so many bytes.
    Token(Kind, usize),
    /// The byte at this place may not stand there.
    Ill(usize),
    /// The bytes end before it does.
    Cut,
}
