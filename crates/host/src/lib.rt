// The host side: commands written for the card, and with them the reading of commands and answers.
#![tactic(auto)]

mod bodies;
pub mod building;
pub mod faults;
mod forms;
mod writing;

pub use answers::{
    AmountsAnswer, AnswerFault, SignedAnswer, answer_data, check_answer, data_length, examine,
};
pub use apdu::{Command, Header, Kind, Request, parse, read};
pub use building::{build, compose};
pub use faults::BuildFault;
pub use measures::Transaction;
pub use status::{CallError, StatusWord};
