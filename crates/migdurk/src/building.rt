// Commands that the host side builds, and how each is read back.
ghost use Rattle.std.specs.Prelude.{◌≤◌, length, IfOk};

use host::BuildFault;
use host_words::BuildWords;

// The bytes of the longest command that is built.
const LONGEST: usize = 519;

// The name of the applet.
const NAME: &[u8] = b"\xa0\x00\x00\x07HFJI-TaxCore";

// A sale of 1000 with one category: date, taxpayer, buyer, type, transaction, amount, count; id and amount.
const INVOICE: &[u8] = b"\x00\x00\x01\x8f\x2b\x6c\x1c\x00\
    \0\0\0\0\0\0\0\0\x0012345678901\
    \0\0\0\0\0\0\0\0\0\0\0\0\0\0\0\0\0\0\0\0\
    \0\0\0\0\0\0\0\x03\xe8\x01\
    \x01\0\0\0\0\0\x03\xe8";

// Builds each of the nine commands, and then some that are refused: each reason once.
pub(crate) fn show_host(rt: &HostRuntime) -> anyhow::Result<()> {
    let shown: [(u8, &[u8]); 12] = [
        (0xa4, NAME),
        (0x08, &[]),
        (0x16, &[]),
        (0x14, &[]),
        (0x15, &[]),
        (0x11, b"1234"),
        (0x13, INVOICE),
        (0x12, &[]),
        (0x40, &[0; 512]),
        (0x99, &[]),
        (0xa4, &[0; 17]),
        (0x13, &[0; 58]),
    ];
    for (instruction, body) in shown {
        show_build(rt, instruction, body)?;
    }
    build_into(rt, 0x08, &[], &mut [0; 4])
}

// Builds the command of an instruction and a body, and prints it and how it is read back; or why it is refused.
pub(crate) fn show_build(rt: &HostRuntime, instruction: u8, body: &[u8]) -> anyhow::Result<()> {
    build_into(rt, instruction, body, &mut [0; LONGEST])
}

// The same in a buffer that is given.
fn build_into(
    rt: &HostRuntime,
    instruction: u8,
    body: &[u8],
    out: &mut [u8],
) -> anyhow::Result<()> {
    let len = host::compose(instruction, body, out);
    let words = BuildWords {
        instruction,
        result: command_in(out, len),
    };
    Ok(println!(rt; "{words}")?)
}

// The command that was written to the beginning of a buffer, or why none was. A function of its own: one arm of a match
// cannot lend a part of the buffer.
fn command_in(buffer: &[u8], len: Result<usize, BuildFault>) -> Result<&[u8], BuildFault>
    requires { IfOk len (λ n. n ≤ length buffer.now) }
{
    Ok(&buffer[..len?])
}
