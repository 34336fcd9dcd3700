//! Numerals.
ghost use Rattle.std.specs.Prelude.{◌≡◌, ◌+◌, ◌-◌, ◌*◌};
ghost use Rattle.smt_names.specs.Names.{number_from, is_wide as wide};
ghost use Rattle.smt_names.specs.Names.{word_of};
ghost use Rattle.smt_text.specs.declared.token.Place.{Place};
ghost use Rattle.smt_terms.specs.Checks.{IsNumber};

use smt_names::is_numeral;
use smt_text::Kind;

/// The number with one digit more, where it has at most 128 bits.
fn with_digit(number: u128, digit: u8) -> Option<u128>
    ensures { IsNumber (10 * number + (digit - 48)) result }
{
    match number.checked_mul(10) {
        None => None,
        Some(tens) => tens.checked_add(u128::from(digit.saturating_sub(48))),
    }
}

/// The number that digits stand for, where it has at most 128 bits.
pub fn number_of(digits: &[u8]) -> Option<u128>
    ensures { IsNumber (number_from 0 digits.now) result }
{
    let mut number = 0;
    for digit in digits {
        match with_digit(number, *digit) {
            None => return None,
            Some(more) => number = more,
        }
    }
    Some(number)
}

/// Whether a token is a numeral of more than 128 bits.
pub fn is_wide(kind: Kind, text: &[u8]) -> bool
    ensures { (place : Place) → result ≡ wide (word_of kind place text.now) }
{
    is_numeral(kind) && number_of(text).is_none()
}
