// How calls answer: status words of the card, and numbers with which a call refuses.
#![tactic(auto)]

pub mod errors;
pub mod words;

pub use errors::CallError;
pub use words::{StatusWord, UnknownWord};
