// The sizes of what the commands answer, and where the fields of an answer begin.
use measures::sizes::{AMOUNT_SIZE, COUNT_AT, NUMBER_SIZE, TAXPAYER_AT};
use sealers::{ANSWER_SIZE, BLOCK_SIZE};

// The bytes of a status word.
pub const WORD_SIZE: usize = 2;

// The bytes of the edition: three numbers.
pub const VERSION_SIZE: usize = 3 * NUMBER_SIZE;

// The byte of the tries left.
pub const TRIES_SIZE: usize = 1;

// An answer of amounts: the unaudited amount and its limit.
pub const AMOUNTS_SIZE: usize = 2 * AMOUNT_SIZE;

// A signing answer: the fields of the body before its count, the counter of the side, the total counter, the covered
// block and the seal.
pub(crate) const SIDE_AT: usize = COUNT_AT;

pub(crate) const TOTAL_AT: usize = SIDE_AT + NUMBER_SIZE;

pub(crate) const BLOCK_AT: usize = TOTAL_AT + NUMBER_SIZE;

pub(crate) const SEAL_AT: usize = BLOCK_AT + BLOCK_SIZE;

pub const SIGNED_SIZE: usize = SEAL_AT + ANSWER_SIZE;

// An export: the key version, the covered block, the invoice without its date, and the seal.
pub const EXPORT_SIZE: usize = NUMBER_SIZE + BLOCK_SIZE + (COUNT_AT - TAXPAYER_AT) + ANSWER_SIZE;
