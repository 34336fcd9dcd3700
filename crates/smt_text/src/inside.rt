//! Where in a lexeme a byte stands.

use crate::lexeme::Lexeme;

/// What the bytes of a lexeme so far are.
#[derive(Clone, Copy, Debug, PartialEq, Eq)]
pub enum Inside {
    /// There are none.
    Start,
    /// A comment.
    Comment,
    /// A symbol without bars.
    Symbol,
    /// A colon.
    Colon,
    /// A colon and symbol bytes.
    Keyword,
    /// A leading 0.
    Zero,
    /// Digits.
    Numeral,
    /// Digits and a dot.
    Dot,
    /// Digits, a dot and digits.
    Decimal,
    /// A number sign.
    Sign,
    /// `#x`
    HexSign,
    /// `#x` and digits.
    Hex,
    /// `#b`
    BinarySign,
    /// `#b` and digits.
    Binary,
    /// A quote and what follows it, where no quote waits for its pair.
    Text,
    /// The same and one more quote, which ends the text unless another one follows.
    Quote,
    /// A bar and what follows it.
    Bars,
}

/// What one byte more makes of a lexeme.
#[derive(Clone, Copy, Debug, PartialEq, Eq)]
pub enum Next {
    /// It goes on, and this is what its bytes are.
    Inside(Inside),
    /// It is this.
    Is(Lexeme),
}
