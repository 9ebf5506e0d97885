// Sealers: what covers a block and seals a message.
#![tactic(auto)]

pub mod bench;
pub mod recorded;
pub mod rules;

pub use bench::BenchSealer;
pub use recorded::RecordedSealer;
pub use rules::{ANSWER_SIZE, BLOCK_SIZE, Sealer};
pub use status::CallError;
