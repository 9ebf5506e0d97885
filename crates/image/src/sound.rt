// Soundness: what an image must keep.
ghost use Rattle.std.specs.Prelude.{◌≡◌};
ghost use Rattle.std.specs.List.{list_all};
ghost use Rattle.image.specs.Layout.{meaning};
ghost use Rattle.image.specs.Sound.{kinds_right, fits_flag, flag_good, mark_part, last_part, records_layout, total, zero_byte, digit, held, check};

use crate::fields::Image;
use crate::flaws::Flaw;
use crate::places::{
    ANSWER_AT, COUNTERS_KIND_AT, KEY_KIND_AT, Kind, LAST_AT, LAST_KIND_AT, MARK_AT,
    MARK_COUNTER_AT, MONEY_KIND_AT, PIN_KIND_AT, PIN_SIZE, ROWS_KIND_AT,
};
use stores::IMAGE_SIZE;

// The tries of a PIN that has just been entered rightly.
pub(crate) const MOST_TRIES: u8 = 5;

// The flaw of what must be kept, if it is not.
fn hold(kept: bool, flaw: Flaw) -> Result<(), Flaw>
    ensures { result ≡ held kept flaw }
{
    if kept { Ok(()) } else { Err(flaw) }
}

// The flaw in the kind bytes and flags of the records, if they have one.
pub(crate) fn check_records(bytes: &[u8; IMAGE_SIZE]) -> Result<(), Flaw>
    ensures { result ≡ records_layout bytes.now }
{
    hold(are_kinds_right(bytes), Flaw::Kinds)?;
    hold(is_mark_good(bytes), Flaw::MarkFlag)?;
    hold(is_last_good(bytes), Flaw::LastFlag)
}

// Whether the six records have their kind bytes.
fn are_kinds_right(bytes: &[u8; IMAGE_SIZE]) -> bool
    ensures { result ≡ kinds_right bytes.now }
{
    bytes[COUNTERS_KIND_AT] == Kind::Counters as u8
        && bytes[MONEY_KIND_AT] == Kind::Money as u8
        && bytes[PIN_KIND_AT] == Kind::Pin as u8
        && bytes[ROWS_KIND_AT] == Kind::Rows as u8
        && bytes[LAST_KIND_AT] == Kind::Last as u8
        && bytes[KEY_KIND_AT] == Kind::Key as u8
}

// Whether the flag of the mark fits its fields.
fn is_mark_good(bytes: &[u8; IMAGE_SIZE]) -> bool
    ensures { result ≡ flag_good (mark_part bytes.now) }
{
    fits_flag(bytes[MARK_AT], &bytes[MARK_COUNTER_AT..PIN_KIND_AT])
}

// Whether the flag of the last answer fits it. As for the mark: one for both would take three places.
fn is_last_good(bytes: &[u8; IMAGE_SIZE]) -> bool
    ensures { result ≡ flag_good (last_part bytes.now) }
{
    fits_flag(bytes[LAST_AT], &bytes[ANSWER_AT..KEY_KIND_AT])
}

// Whether a flag fits the fields behind it: it is 0, and they are zero, or it is 1.
fn fits_flag(flag: u8, fields: &[u8]) -> bool
    ensures { result ≡ fits_flag flag fields.now }
{
    flag == 1 || flag == 0 && are_zero(fields)
}

// Whether all bytes are zero.
fn are_zero(bytes: &[u8]) -> bool
    ensures { result ≡ list_all zero_byte bytes.now }
{
    bytes.iter().all(|b| *b == 0)
}

// Whether bytes are a PIN: four ASCII digits.
pub(crate) fn is_pin(bytes: &[u8; PIN_SIZE]) -> bool
    ensures { result ≡ list_all digit bytes.now }
{
    bytes.iter().all(|b| b.is_ascii_digit())
}

impl Image {
    // The total counter: sales and refunds.
    pub fn total(&self) -> u64
        ensures { result ≡ total (meaning self.now) }
    {
        u64::from(self.counters.sale.value()) + u64::from(self.counters.refund.value())
    }

    // The flaw in the fields, if they have one.
    pub fn check(&self) -> Result<(), Flaw>
        ensures { result ≡ check (meaning self.now) }
    {
        let total = self.total();
        let mark = self.mark.unwrap_or_default();
        hold(total <= u64::from(u32::MAX), Flaw::Total)?;
        hold(self.unaudited <= self.limit, Flaw::OverLimit)?;
        hold(u64::from(mark.counter) <= total, Flaw::MarkCounter)?;
        hold(mark.amount <= self.unaudited, Flaw::MarkAmount)?;
        hold(is_pin(&self.pin), Flaw::Pin)?;
        hold(self.tries <= MOST_TRIES, Flaw::Tries)?;
        hold(self.last.is_some() == (total > 0), Flaw::LastAnswer)
    }
}
