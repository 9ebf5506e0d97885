// Where the fields of an image begin. Each record has its kind byte before its fields.
use ledger::{Money, Number, Row, StoredMeasure};
pub use measures::sizes::AMOUNT_SIZE;

// The bytes of the PIN and of an answer to a signing.
pub const PIN_SIZE: usize = 4;

pub const ANSWER_SIZE: usize = 577;

// The kinds of the records, each the first byte of its record.
// Six constants would be no plainer: the enum says that these are all, and that they are neither places nor sizes.
#[derive(Clone, Copy)]
pub(crate) enum Kind {
    Counters = 1,
    Money = 2,
    Pin = 3,
    Rows = 4,
    Last = 5,
    Key = 6,
}

// Record 01: counters and sums.
pub(crate) const COUNTERS_KIND_AT: usize = 0;

pub(crate) const COUNTERS_AT: usize = COUNTERS_KIND_AT + 1;

pub(crate) const SUMS_AT: usize = COUNTERS_AT + 2 * Number::WIDTH;

// Record 02: the unaudited amount, its limit and the mark.
pub(crate) const MONEY_KIND_AT: usize = SUMS_AT + 2 * Money::WIDTH;

pub(crate) const UNAUDITED_AT: usize = MONEY_KIND_AT + 1;

pub(crate) const LIMIT_AT: usize = UNAUDITED_AT + AMOUNT_SIZE;

pub(crate) const MARK_AT: usize = LIMIT_AT + AMOUNT_SIZE;

pub(crate) const MARK_COUNTER_AT: usize = MARK_AT + 1;

pub(crate) const MARK_AMOUNT_AT: usize = MARK_COUNTER_AT + Number::WIDTH;

// Record 03: the PIN and its tries left.
pub(crate) const PIN_KIND_AT: usize = MARK_AMOUNT_AT + AMOUNT_SIZE;

pub(crate) const PIN_AT: usize = PIN_KIND_AT + 1;

pub(crate) const TRIES_AT: usize = PIN_AT + PIN_SIZE;

// Record 04: rows.
pub(crate) const ROWS_KIND_AT: usize = TRIES_AT + 1;

pub(crate) const ROWS_AT: usize = ROWS_KIND_AT + 1;

// Record 05: the last answer.
pub(crate) const LAST_KIND_AT: usize = ROWS_AT + 2 * Row::WIDTH;

pub(crate) const LAST_AT: usize = LAST_KIND_AT + 1;

pub(crate) const ANSWER_AT: usize = LAST_AT + 1;

// Record 06: the key version.
pub(crate) const KEY_KIND_AT: usize = ANSWER_AT + ANSWER_SIZE;

pub(crate) const KEY_AT: usize = KEY_KIND_AT + 1;
