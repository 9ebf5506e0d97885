// Bytes written in hexadecimal: two digits of either case a byte, and blanks between bytes as one likes. A lone `-`
// stands for no bytes.
#![tactic(auto)]

ghost use Rattle.hex_text.specs.Text.{Gives, bytes_of, decoded};

use std::alloc::Global;

pub mod digits;
pub mod errors;

pub use digits::digit;
pub use errors::HexError;

// The bytes that a text writes, or its first fault.
pub fn decode(heap: Global, text: &[u8]) -> Result<Vec<u8>, HexError>
    ensures { Gives result (bytes_of text.now) }
{
    if matches!(text, [b'-']) {
        return Ok(Vec::new(heap));
    }
    decode_digits(heap, text)
}

// The bytes that digits and blanks write, or their first fault.
fn decode_digits(heap: Global, text: &[u8]) -> Result<Vec<u8>, HexError>
    ensures { Gives result (decoded text.now) }
{
    let mut bytes = Vec::new(heap);
    let mut rest = text;
    loop {
        rest = match rest {
            [] => return Ok(bytes),
            [b' ' | b'\t', behind @ ..] => behind,
            [high, low, behind @ ..] => {
                bytes.push(digits::byte_of(*high, *low)?)?;
                behind
            }
            [high] => return Err(digits::alone(*high)),
        };
    }
}
