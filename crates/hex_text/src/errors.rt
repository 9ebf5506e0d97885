// Why a text is no bytes in hexadecimal.
ghost use Rattle.std.specs.Prelude.{◌≡◌, Some};
ghost use Rattle.hex_text.specs.Errors.{error_text};
ghost use Rattle.hex_text.specs.declared.errors.HexError.TheVariants.{NoMemory};

use std::alloc::AllocFailed;
use std::error::Error;
use std::fmt;

#[derive(Clone, Copy, PartialEq, Eq, Debug)]
pub enum HexError {
    NoDigit(u8),
    HalfByte,
    NoMemory,
}

impl<T: Drop> From<AllocFailed<T>> for HexError {
    ghost from_gives = { λ _ e. e ≡ NoMemory };

    fn from(_failed: AllocFailed<T>) -> HexError {
        HexError::NoMemory
    }
}

impl fmt::Display for HexError {
    ghost output = { λ e. Some (error_text e) };

    fn fmt<W: fmt::Write>(&self, f: &mut fmt::Formatter<W>) -> fmt::Result {
        match *self {
            HexError::NoDigit(c) => write!(f, "the character {c} is no digit"),
            HexError::HalfByte => f.write_str("a byte has one digit"),
            HexError::NoMemory => f.write_str("no memory"),
        }
    }
}

impl Error for HexError {}
