// Why bytes are no command.
ghost use Rattle.std.specs.Prelude.{◌≡◌, Some};
ghost use Rattle.apdu.specs.Faults.{refusal_of, fault_name};

use status::CallError;
use std::error::Error;
use std::fmt;

#[derive(Clone, Copy, PartialEq, Eq, Debug)]
pub enum Fault {
    NoHeader,
    HalfLength,
    EmptyBody,
    CutBody,
    HalfLe,
    TrailingBytes,
}

// The refusal of a call that cannot read its bytes.
impl From<Fault> for CallError {
    ghost from_gives = { λ f e. e ≡ refusal_of f };

    fn from(_fault: Fault) -> CallError {
        CallError::Unreadable
    }
}

impl fmt::Display for Fault {
    ghost output = { λ x. Some (fault_name x) };

    fn fmt<W: fmt::Write>(&self, f: &mut fmt::Formatter<W>) -> fmt::Result {
        f.pad(match self {
            Fault::NoHeader => "fewer than four bytes",
            Fault::HalfLength => "half of an extended length",
            Fault::EmptyBody => "an extended Lc of 0 before a body",
            Fault::CutBody => "fewer body bytes than Lc says",
            Fault::HalfLe => "half of an extended Le",
            Fault::TrailingBytes => "more behind the body than an Le",
        })
    }
}

impl Error for Fault {}
