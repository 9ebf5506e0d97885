// How commands are read, in words.
use crate::lines::uncommented;
use host_words::{CommandWords, Refused};
use std::fmt;

// How many lines of each sort there were. Counted by hand: each line is printed as it is read, so no list is there to
// count.
#[derive(Default, Drop)]
pub(crate) struct Readout {
    commands: u64,
    no_commands: u64,
    no_hexadecimal: u64,
}

impl Readout {
    // Prints how a line is read; one with nothing but blanks and a comment is passed over.
    pub(crate) fn line(
        &mut self,
        rt: &HostRuntime,
        number: u64,
        line: &[u8],
    ) -> anyhow::Result<()> {
        let text = uncommented(line).trim_ascii();
        if text.is_empty() {
            return Ok(());
        }
        match hex_text::decode(rt.alloc(), text) {
            Ok(bytes) => self.command(rt, number, &bytes),
            Err(e) => {
                self.no_hexadecimal = self.no_hexadecimal.saturating_add(1);
                Ok(println!(rt; "line {number}: not hexadecimal: {e}")?)
            }
        }
    }

    // Prints how a command is read, or why it is none.
    fn command(&mut self, rt: &HostRuntime, number: u64, bytes: &[u8]) -> anyhow::Result<()> {
        match apdu::parse(bytes) {
            Ok(command) => {
                self.commands = self.commands.saturating_add(1);
                let said = CommandWords(command);
                Ok(println!(rt; "line {number}: {said}")?)
            }
            Err(fault) => {
                self.no_commands = self.no_commands.saturating_add(1);
                let refused = Refused::by(fault);
                Ok(println!(rt; "line {number}: no command, {refused}")?)
            }
        }
    }
}

impl fmt::Display for Readout {
    fn fmt<W: fmt::Write>(&self, f: &mut fmt::Formatter<W>) -> fmt::Result {
        let Readout {
            commands,
            no_commands,
            no_hexadecimal,
        } = self;
        write!(
            f,
            "commands: {commands}, no commands: {no_commands}, not hexadecimal: {no_hexadecimal}"
        )
    }
}
