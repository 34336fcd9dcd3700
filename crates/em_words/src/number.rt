//! Numbers as words.
ghost use Rattle.std.specs.Prelude.{◌≡◌};
ghost use Rattle.std.specs.List.{list_all};
ghost use Rattle.em_words.specs.Number.{is_digit, is_numeral, number_in, within};

/// A decimal digit.
fn is_digit(byte: u8) -> bool
    ensures { result ≡ is_digit byte }
{
    b'0' <= byte && byte <= b'9'
}

fn are_digits(text: &[u8]) -> bool
    ensures { result ≡ list_all is_digit text.now }
{
    text.iter().all(|byte| is_digit(*byte))
}

/// Decimal digits without a leading zero.
fn is_numeral(text: &[u8]) -> bool
    ensures { result ≡ is_numeral text.now }
{
    match text {
        [] => false,
        [only] => is_digit(*only),
        [first, ..] => *first != b'0' && are_digits(text),
    }
}

/// The number, where it is in its limits.
fn within(number: u32, least: u32, most: u32) -> Option<u32>
    ensures { result ≡ within least most number }
{
    if least <= number && number <= most {
        Some(number)
    } else {
        None
    }
}

/// The number that a word writes, where it is in its limits.
pub(crate) fn number_in(text: &str, least: u32, most: u32) -> Option<u32>
    ensures { result ≡ number_in least most text.now }
{
    if !is_numeral(text.as_bytes()) {
        return None;
    }
    match text.parse::<u32>() {
        Ok(number) => within(number, least, most),
        Err(_) => None,
    }
}
