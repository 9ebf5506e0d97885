// How much data each command answers.
ghost use Rattle.std.specs.Prelude.{◌≡◌};
ghost use Rattle.answers.specs.Lengths.{data_length};

use crate::sizes::{AMOUNTS_SIZE, EXPORT_SIZE, SIGNED_SIZE, TRIES_SIZE, VERSION_SIZE};
use apdu::Kind;

// The bytes of data that an accepted command of a kind answers; none for a command that is not one of the nine.
pub fn data_length(kind: Kind) -> Option<usize>
    ensures { result ≡ data_length kind }
{
    match kind {
        Kind::Version => Some(VERSION_SIZE),
        Kind::Tries => Some(TRIES_SIZE),
        Kind::Amounts => Some(AMOUNTS_SIZE),
        Kind::Last | Kind::Sign => Some(SIGNED_SIZE),
        Kind::Export => Some(EXPORT_SIZE),
        Kind::Select | Kind::Pin | Kind::Directive => Some(0),
        Kind::Other => None,
    }
}
