//! Tests of one byte.
ghost use Rattle.std.specs.Prelude.{◌≡◌};
ghost use Rattle.smt_text.specs.Bytes.{is_white, is_digit, is_letter, is_symbol_byte, is_hex_digit, is_binary_digit, is_inner};

pub(crate) fn is_white(byte: u8) -> bool
    ensures { result ≡ is_white byte }
{
    matches!(byte, 9 | 10 | 13 | 32)
}

pub(crate) fn is_digit(byte: u8) -> bool
    ensures { result ≡ is_digit byte }
{
    byte.is_ascii_digit()
}

fn is_letter(byte: u8) -> bool
    ensures { result ≡ is_letter byte }
{
    byte.is_ascii_alphabetic()
}

/// A letter, a digit or one of 17 signs.
pub(crate) fn is_symbol_byte(byte: u8) -> bool
    ensures { result ≡ is_symbol_byte byte }
{
    is_letter(byte) || is_digit(byte) || b"~!@$%^&*_-+=<>.?/".contains(&byte)
}

pub(crate) fn is_hex_digit(byte: u8) -> bool
    ensures { result ≡ is_hex_digit byte }
{
    is_digit(byte) || matches!(byte, b'A'..=b'F' | b'a'..=b'f')
}

pub(crate) fn is_binary_digit(byte: u8) -> bool
    ensures { result ≡ is_binary_digit byte }
{
    matches!(byte, b'0' | b'1')
}

/// A byte that may stand in a text or between bars.
pub(crate) fn is_inner(byte: u8) -> bool
    ensures { result ≡ is_inner byte }
{
    is_white(byte) || matches!(byte, 32..=126 | 128..)
}
