// Bytes and commands in words.
use crate::refusals::Refused;
use host::{BuildFault, Command, Request};
use std::fmt;

// Bytes in hexadecimal; none are a dash.
#[derive(Clone, Copy)]
pub struct Hex<'a>(pub &'a [u8]);

impl fmt::Display for Hex<'_> {
    fn fmt<W: fmt::Write>(&self, f: &mut fmt::Formatter<W>) -> fmt::Result {
        if self.0.is_empty() {
            return f.write_str("-");
        }
        for byte in self.0 {
            write!(f, "{byte:02X}")?;
        }
        Ok(())
    }
}

// What a command says, on one line.
#[derive(Clone, Copy)]
pub struct CommandWords<'a>(pub Command<'a>);

impl fmt::Display for CommandWords<'_> {
    fn fmt<W: fmt::Write>(&self, f: &mut fmt::Formatter<W>) -> fmt::Result {
        let kind = self.0.kind();
        let Request {
            header,
            body,
            place,
            le,
        } = self.0.request();
        let len = body.len();
        write!(
            f,
            "{kind}, class {:02X}, instruction {:02X}, ",
            header.class, header.instruction
        )?;
        write!(
            f,
            "P1-P2 {:02X}{:02X}, body at {place}, length {len}, ",
            header.p1, header.p2
        )?;
        match le {
            Some(n) => write!(f, "Le {n}"),
            None => f.write_str("no Le"),
        }
    }
}

// What building the command of an instruction gave: the command and how it is read back, or why it is refused.
#[derive(Clone, Copy)]
pub struct BuildWords<'a> {
    pub instruction: u8,
    pub result: Result<&'a [u8], BuildFault>,
}

impl fmt::Display for BuildWords<'_> {
    fn fmt<W: fmt::Write>(&self, f: &mut fmt::Formatter<W>) -> fmt::Result {
        write!(f, "build {:02X}: ", self.instruction)?;
        match self.result {
            Ok(command) => write_read_back(f, command),
            Err(fault) => write!(f, "{}", Refused::by(fault)),
        }
    }
}

// Writes a command, and how it is read.
fn write_read_back<W: fmt::Write>(f: &mut fmt::Formatter<W>, command: &[u8]) -> fmt::Result {
    write!(f, "{}\n  ", Hex(command))?;
    match host::parse(command) {
        Ok(read) => write!(f, "read back: {}", CommandWords(read)),
        Err(fault) => write!(f, "not read back: {fault}"),
    }
}
