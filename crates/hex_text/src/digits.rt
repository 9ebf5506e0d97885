// Digits, and the bytes that two of them write.
ghost use Rattle.std.specs.Prelude.{◌≡◌, ◌<◌, IfSome};
ghost use Rattle.hex_text.specs.Text.{digit_value, alone, two_digits};

use crate::errors::HexError;

// The value of a digit of either case; none for another character.
pub fn digit(c: u8) -> Option<u8>
    ensures value { result ≡ digit_value c }
    ensures bound { IfSome result (λ d. d < 16) }
{
    // Three ranges: `char::to_digit` is up to a quarter more instructions for a text.
    match c {
        b'0'..=b'9' => Some(c - b'0'),
        b'A'..=b'F' => Some(c - b'A' + 10),
        b'a'..=b'f' => Some(c - b'a' + 10),
        _ => None,
    }
}

// The byte that two digits write.
pub(crate) fn byte_of(high: u8, low: u8) -> Result<u8, HexError>
    ensures { result ≡ two_digits high low }
{
    let h = digit(high).ok_or(HexError::NoDigit(high))?;
    let l = digit(low).ok_or(HexError::NoDigit(low))?;
    Ok(h * 16 + l)
}

// What is wrong with a last character that is no blank. A match: `map_or` would name the case
// of no digit first.
pub(crate) fn alone(c: u8) -> HexError
    ensures { result ≡ alone c (digit_value c) }
{
    match digit(c) {
        Some(_) => HexError::HalfByte,
        None => HexError::NoDigit(c),
    }
}
