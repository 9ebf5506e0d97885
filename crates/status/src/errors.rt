// The numbers with which a call refuses.
ghost use Rattle.std.specs.Prelude.{◌≡◌, Some};
ghost use Rattle.status.specs.Errors.{error_number, error_name};

use std::error::Error;
use std::fmt;

#[derive(Clone, Copy, PartialEq, Eq, Debug)]
pub enum CallError {
    SmallBuffer = 1,
    BadField = 2,
    Unreadable = 3,
    BadMemory = 4,
}

// The number of the refusal.
impl From<CallError> for u8 {
    ghost from_gives = { λ e n. n ≡ error_number e };

    fn from(error: CallError) -> u8 {
        error as u8
    }
}

impl fmt::Display for CallError {
    ghost output = { λ e. Some (error_name e) };

    fn fmt<W: fmt::Write>(&self, f: &mut fmt::Formatter<W>) -> fmt::Result {
        f.pad(match self {
            CallError::SmallBuffer => "small buffer",
            CallError::BadField => "bad field",
            CallError::Unreadable => "unreadable",
            CallError::BadMemory => "bad store memory",
        })
    }
}

impl Error for CallError {}
