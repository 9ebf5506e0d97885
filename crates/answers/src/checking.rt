// Checking an answer, and then its data.
ghost use Rattle.std.specs.Prelude.{◌≡◌};
ghost use Rattle.apdu.specs.Kinds.{kind_named};
ghost use Rattle.answers.specs.Lengths.{data_length};
ghost use Rattle.answers.specs.Answered.{WayBack};
ghost use Rattle.answers.specs.Checking.{data_of, judged, examined, checked};

use crate::faults::AnswerFault;
use crate::lengths::data_length;
use crate::sizes::WORD_SIZE;
use apdu::Kind;
use status::{CallError, StatusWord};

// The status word of a response to an instruction, or why the response is no answer. Each answer that the nine
// commands may have is read as its word, and only such a response is an answer.
#[tactic(auto, using(crate::proofs::Backs::way_back))]
pub fn examine(instruction: u8, response: &[u8]) -> Result<StatusWord, AnswerFault>
    ensures value { result ≡ examined instruction response.now }
    ensures forms { WayBack (kind_named instruction) response.now }
{
    let len = data_length(Kind::named(instruction)).ok_or(AnswerFault::UnknownInstruction)?;
    let (data, word) = response
        .split_last_chunk::<WORD_SIZE>()
        .ok_or(AnswerFault::NoStatusWord)?;
    let word = StatusWord::try_from(u16::from_be_bytes(*word))?;
    judge(len, data.len(), word)
}

// The same, where every fault is refused by one number. Kept beside it for callers that hand on the number of a call.
pub fn check_answer(instruction: u8, response: &[u8]) -> Result<StatusWord, CallError>
    ensures { result ≡ checked instruction response.now }
{
    Ok(examine(instruction, response)?)
}

// The data of a response: all but its status word, and nothing where it has none.
pub fn answer_data(response: &[u8]) -> &[u8]
    ensures { result.now ≡ data_of response.now }
{
    response
        .split_last_chunk::<WORD_SIZE>()
        .map_or(&[], |(data, _)| data)
}

// A status word beside `found` bytes of data, where an accepted command answers `len`.
fn judge(len: usize, found: usize, word: StatusWord) -> Result<StatusWord, AnswerFault>
    ensures { result ≡ judged len found word }
{
    match word {
        StatusWord::Success if found != len => Err(AnswerFault::WrongDataLength),
        StatusWord::Success => Ok(word),
        _ if found != 0 => Err(AnswerFault::DataWithRefusal),
        _ => Ok(word),
    }
}
