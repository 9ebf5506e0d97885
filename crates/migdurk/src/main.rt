// The emulated fiscal card on the command line.
#![tactic(auto)]

use std::env;
use std::io::{BufRead, BufReader};

mod building;
mod lines;
mod readout;
mod show;
mod tasks;

use building::{show_build, show_host};
use host_words::AnswerWords;
use readout::Readout;
use show::show_image;
use tasks::Task;

const HELP: &str = "migdurk: the emulated fiscal card on the command line

  migdurk [WORD...]  do what the words ask for, in order; no word is the word 'read'

  read    read commands in hexadecimal from standard input, one a line, and print how
          each is read: its kind, class, instruction and P1-P2, the place and length of
          its body, and Le; or why it is no command
  build INSTRUCTION BODY
          build the command of an instruction and a body, and print it and how it is read
          back; or why it is refused
  answer INSTRUCTION RESPONSE
          print the status word and the data of a response to an instruction, with its
          fields where it is a signing answer or an answer of amounts; or why it is refused
  host    build each of the nine commands, and some that are refused
  image   personalise a card image, keep it in a flat store and in a tape store, write
          it twice with one PIN try less, the second time with no writes left, and print
          it in words
  help    print this text

Bytes are written in hexadecimal, two digits of either case for each byte, with blanks
between bytes as one likes; '-' stands for no bytes. In a line of 'read', '#' starts a
comment, a line with nothing else is passed over, and a line that is not hexadecimal is
reported with its number.";

fn main(rt: HostRuntime) -> anyhow::Result<()> {
    run(&rt)
}

// Does what the arguments ask for, unless one of them cannot be understood.
fn run(rt: &HostRuntime) -> anyhow::Result<()> {
    let tasks = read_tasks(rt)?;
    if tasks.is_empty() {
        return read_commands(rt);
    }
    for task in tasks {
        obey(rt, task)?;
    }
    Ok(())
}

// The tasks that the arguments ask for; or what is wrong with them.
fn read_tasks(rt: &HostRuntime) -> anyhow::Result<Vec<Task>> {
    let mut words = Vec::new(rt.alloc());
    words.extend(env::args(rt)?.skip(1))?;
    let mut words = words.iter();
    let mut tasks = Vec::new(rt.alloc());
    while let Some(word) = words.next() {
        tasks.push(Task::read(rt.alloc(), word, &mut words)?)?;
    }
    Ok(tasks)
}

// Does a task.
fn obey(rt: &HostRuntime, task: Task) -> anyhow::Result<()> {
    match task {
        Task::Read => read_commands(rt),
        Task::Image => show_image(rt),
        Task::Host => show_host(rt),
        Task::Help => Ok(println!(rt; "{HELP}")?),
        Task::Build(instruction, body) => show_build(rt, instruction, &body),
        Task::Answer(instruction, response) => {
            let answer = AnswerWords {
                instruction,
                response: &response,
            };
            Ok(println!(rt; "{answer}")?)
        }
    }
}

// Prints how each line of standard input is read, and then how many lines of each sort there were.
fn read_commands(rt: &HostRuntime) -> anyhow::Result<()> {
    let mut readout = Readout::default();
    let lines = BufReader::new(rt.alloc(), rt.stdin())?.split(rt.alloc(), b'\n');
    for (number, line) in (1u64..).zip(lines) {
        readout.line(rt, number, &line?)?;
    }
    Ok(println!(rt; "{readout}")?)
}
