// Answers of the card, as a terminal reads them.
#![tactic(auto)]

pub mod checking;
pub mod faults;
pub mod fields;
pub mod lengths;
pub mod sizes;

pub use checking::{answer_data, check_answer, examine};
pub use faults::AnswerFault;
pub use fields::{AmountsAnswer, SignedAnswer};
pub use lengths::data_length;
