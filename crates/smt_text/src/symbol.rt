//! Symbols that are written as they are.
ghost use Rattle.std.specs.Prelude.{◌≡◌};
ghost use Rattle.std.specs.List.{list_all};
ghost use Rattle.smt_text.specs.Bytes.{is_symbol_byte};
ghost use Rattle.smt_text.specs.Symbols.{is_simple};

use crate::bytes::{is_digit, is_symbol_byte};

fn are_symbol_bytes(name: &[u8]) -> bool
    ensures { result ≡ list_all is_symbol_byte name.now }
{
    name.iter().all(|byte| is_symbol_byte(*byte))
}

/// Whether the name of a symbol is a token without bars.
pub fn is_simple(name: &[u8]) -> bool
    ensures { result ≡ is_simple name.now }
{
    match name {
        [] => false,
        [first, ..] => !is_digit(*first) && are_symbol_bytes(name),
    }
}
