// Identifiers: zeros on the left, and then text.
ghost use Rattle.std.specs.Prelude.{◌≡◌};
ghost use Rattle.std.specs.List.{list_all};
ghost use Rattle.measures.specs.Identifiers.{text, unpadded, identifier, named};

use crate::sizes::IDENTIFIER_SIZE;

// Whether bytes are a good identifier.
pub fn is_identifier(bytes: &[u8]) -> bool
    ensures { result ≡ identifier bytes.now }
{
    bytes.len() == IDENTIFIER_SIZE && are_text(without_zeros(bytes))
}

// Whether bytes are not all zero.
pub(crate) fn is_named(bytes: &[u8]) -> bool
    ensures { result ≡ named bytes.now }
{
    !without_zeros(bytes).is_empty()
}

// The bytes without the zeros on their left.
fn without_zeros(bytes: &[u8]) -> &[u8]
    ensures { result.now ≡ unpadded bytes.now }
{
    let mut rest = bytes;
    while let [0, after @ ..] = rest {
        rest = after;
    }
    rest
}

// Whether all bytes are text.
fn are_text(bytes: &[u8]) -> bool
    ensures { result ≡ list_all text bytes.now }
{
    bytes.iter().all(|b| is_text(*b))
}

// Whether a byte is text.
fn is_text(b: u8) -> bool
    ensures { result ≡ text b }
{
    matches!(b, b' '..=b'~')
}
