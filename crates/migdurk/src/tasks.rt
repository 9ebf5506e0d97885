// What the words of the command line ask for.
ghost use Rattle.std.specs.Prelude.{◌≤◌, length};

use anyhow::{Context, anyhow, bail};
use std::alloc::Global;
use std::slice::Iter;

#[derive(Drop)]
pub(crate) enum Task {
    Read,
    Image,
    Host,
    Help,
    Build(u8, Vec<u8>),
    Answer(u8, Vec<u8>),
}

impl Task {
    // The task of a word, with what it wants of the words behind it.
    pub(crate) fn read(
        heap: Global,
        word: &str,
        rest: &mut Iter<'_, String>,
    ) -> anyhow::Result<Task>
        ensures { length rest.new.rest.now ≤ length rest.old.rest.now }
    {
        match word {
            "read" => Ok(Task::Read),
            "image" => Ok(Task::Image),
            "host" => Ok(Task::Host),
            "help" | "--help" | "-h" => Ok(Task::Help),
            // Two like arms: one for both would have to be told which task it makes.
            "build" => {
                let (instruction, body) = instruction_and_bytes(
                    heap,
                    rest,
                    "'build' wants an instruction and a body: try 'migdurk help'",
                )?;
                Ok(Task::Build(instruction, body))
            }
            "answer" => {
                let (instruction, response) = instruction_and_bytes(
                    heap,
                    rest,
                    "'answer' wants an instruction and a response: try 'migdurk help'",
                )?;
                Ok(Task::Answer(instruction, response))
            }
            other => bail!("unknown word '{other}': try 'migdurk help'"),
        }
    }
}

// The instruction and the bytes that the next two words write; or what is wanted, where a word lacks.
fn instruction_and_bytes(
    heap: Global,
    words: &mut Iter<'_, String>,
    wanted: &str,
) -> anyhow::Result<(u8, Vec<u8>)>
    ensures { length words.new.rest.now ≤ length words.old.rest.now }
{
    let instruction = instruction_in(heap, words.next().context(wanted)?)?;
    let bytes = bytes_in(heap, words.next().context(wanted)?)?;
    Ok((instruction, bytes))
}

// The bytes that a word writes in hexadecimal.
fn bytes_in(heap: Global, word: &str) -> anyhow::Result<Vec<u8>> {
    hex_text::decode(heap, word.as_bytes()).map_err(|e| anyhow!("'{word}' is not hexadecimal: {e}"))
}

// The one byte that a word writes in hexadecimal.
fn instruction_in(heap: Global, word: &str) -> anyhow::Result<u8> {
    match bytes_in(heap, word)?.as_slice() {
        [instruction] => Ok(*instruction),
        _ => bail!("'{word}' is no instruction: it takes one byte"),
    }
}
