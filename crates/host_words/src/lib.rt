// What the host side builds and reads, in words.
#![tactic(auto)]

pub mod answer_words;
pub mod commands;
pub mod refusals;

pub use answer_words::AnswerWords;
pub use commands::{BuildWords, CommandWords, Hex};
pub use refusals::Refused;
