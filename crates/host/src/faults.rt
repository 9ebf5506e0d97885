// Why a command is not written.
ghost use Rattle.std.specs.Prelude.{◌≡◌, Some};
ghost use Rattle.host.specs.Faults.{refusal_of, fault_name};

use status::CallError;
use std::error::Error;
use std::fmt;

#[derive(Clone, Copy, PartialEq, Eq, Debug)]
pub enum BuildFault {
    UnknownInstruction,
    WrongBodyLength,
    MalformedInvoice,
    SmallBuffer,
}

// The refusal of a call that does not write its command.
impl From<BuildFault> for CallError {
    ghost from_gives = { λ f e. e ≡ refusal_of f };

    fn from(fault: BuildFault) -> CallError {
        match fault {
            BuildFault::UnknownInstruction
            | BuildFault::WrongBodyLength
            | BuildFault::MalformedInvoice => CallError::BadField,
            BuildFault::SmallBuffer => CallError::SmallBuffer,
        }
    }
}

impl fmt::Display for BuildFault {
    ghost output = { λ x. Some (fault_name x) };

    fn fmt<W: fmt::Write>(&self, f: &mut fmt::Formatter<W>) -> fmt::Result {
        f.pad(match self {
            BuildFault::UnknownInstruction => "unknown instruction",
            BuildFault::WrongBodyLength => "wrong length of the body",
            BuildFault::MalformedInvoice => "malformed invoice",
            BuildFault::SmallBuffer => "buffer shorter than the command",
        })
    }
}

impl Error for BuildFault {}
