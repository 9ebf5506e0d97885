// The image: all that a card keeps between commands.
#![tactic(auto)]

pub mod fields;
pub mod flaws;
pub mod personal;
pub mod places;
mod reading;
mod sound;
mod writing;
mod written;

pub use fields::{Image, Mark};
pub use flaws::Flaw;
pub use personal::personalise;
pub use places::{AMOUNT_SIZE, ANSWER_SIZE, PIN_SIZE};
