// Commands as they come from a terminal; with them, the words and numbers that answer one.
#![tactic(auto)]

ghost use Rattle.std.specs.Prelude.{◌≡◌};
ghost use Rattle.apdu.specs.Reading.{parse_result, parsed, read_result, reading};
ghost use Rattle.apdu.specs.Writings.{WayBack};

pub mod commands;
pub mod faults;
pub mod kinds;
mod layout;
mod lengths;

pub use commands::{Command, Header, Request};
pub use faults::Fault;
pub use kinds::Kind;
pub use status::{CallError, StatusWord};

// Reads a command, or says why the bytes are none. The body of a command is a part of `bytes`, from the place that it
// tells on. What is written in one of the seven forms is read as what it says, and only that is a command.
#[tactic(auto, using(crate::proofs::Only::way_back))]
pub fn parse(bytes: &[u8]) -> Result<Command<'_>, Fault>
    ensures value { parse_result result ≡ parsed bytes.now }
    ensures forms { WayBack bytes.now }
{
    Ok(Command::from(layout::request_of(bytes)?))
}

// The same, where every fault is refused by one number. Kept beside it for callers that hand on the number of a call.
pub fn read(bytes: &[u8]) -> Result<Command<'_>, CallError>
    ensures { read_result result ≡ reading bytes.now }
{
    Ok(parse(bytes)?)
}
