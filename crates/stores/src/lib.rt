// Stores of a card's image: what a store means, the flat store and the tape store.
#![tactic(auto)]

pub mod flat;
pub mod store;
pub mod tape;

pub use flat::{FLAT_SIZE, FlatStore};
pub use store::{IMAGE_SIZE, Store, WriteRefused};
pub use tape::{RECORD_SIZE, TapeStore};
