// The fields of an image.
use crate::places::{ANSWER_SIZE, PIN_SIZE};
use ledger::{Money, Number, Row, Tally};

// The mark of an export: the total counter and the unaudited amount that it saw.
#[derive(Clone, Copy, Default)]
pub struct Mark {
    pub counter: u32,
    pub amount: u64,
}

#[derive(Clone, Copy)]
pub struct Image {
    pub counters: Tally<Number>,
    pub sums: Tally<Money>,
    pub unaudited: u64,
    pub limit: u64,
    pub mark: Option<Mark>,
    pub pin: [u8; PIN_SIZE],
    pub tries: u8,
    pub rows: Tally<Row>,
    // the answer to the last signing
    pub last: Option<[u8; ANSWER_SIZE]>,
    pub key_version: u32,
}
