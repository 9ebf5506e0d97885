// Why bytes are no answer.
ghost use Rattle.std.specs.Prelude.{◌≡◌, Some};
ghost use Rattle.answers.specs.Faults.{refusal_of, fault_name};
ghost use Rattle.answers.specs.declared.faults.AnswerFault.TheVariants.{UnknownStatusWord};

use status::{CallError, UnknownWord};
use std::error::Error;
use std::fmt;

#[derive(Clone, Copy, PartialEq, Eq, Debug)]
pub enum AnswerFault {
    UnknownInstruction,
    NoStatusWord,
    UnknownStatusWord,
    WrongDataLength,
    DataWithRefusal,
}

// The refusal of a call that cannot read its bytes.
impl From<AnswerFault> for CallError {
    ghost from_gives = { λ f e. e ≡ refusal_of f };

    fn from(_fault: AnswerFault) -> CallError {
        CallError::Unreadable
    }
}

// The fault of an answer that ends in a value of no status word.
impl From<UnknownWord> for AnswerFault {
    ghost from_gives = { λ _ f. f ≡ UnknownStatusWord };

    fn from(_word: UnknownWord) -> AnswerFault {
        AnswerFault::UnknownStatusWord
    }
}

impl fmt::Display for AnswerFault {
    ghost output = { λ x. Some (fault_name x) };

    fn fmt<W: fmt::Write>(&self, f: &mut fmt::Formatter<W>) -> fmt::Result {
        f.pad(match self {
            AnswerFault::UnknownInstruction => "unknown instruction",
            AnswerFault::NoStatusWord => "fewer than two bytes",
            AnswerFault::UnknownStatusWord => "unknown status word",
            AnswerFault::WrongDataLength => "wrong length of data",
            AnswerFault::DataWithRefusal => "data beside a refusal",
        })
    }
}

impl Error for AnswerFault {}
