// Reading the fields of an image from its bytes.
ghost use Rattle.std.specs.Prelude.{◌≡◌, ◌+◌, ◌*◌, ◌≤◌, length};
ghost use Rattle.octets.specs.Parts.{part};
ghost use Rattle.ledger.specs.Sides.{sides, sides_in};
ghost use Rattle.stores.specs.Sizes.{image_size};
ghost use Rattle.image.specs.Layout.{meaning, mark_in, last_in, image_in};
ghost use Rattle.image.specs.Sound.{sized_read, image_read, read_seen, WrittenBack};

use crate::fields::{Image, Mark};
use crate::flaws::Flaw;
use crate::places::{
    ANSWER_AT, ANSWER_SIZE, COUNTERS_AT, KEY_AT, LAST_AT, LAST_KIND_AT, LIMIT_AT, MARK_AMOUNT_AT,
    MARK_AT, MARK_COUNTER_AT, MONEY_KIND_AT, PIN_AT, PIN_KIND_AT, ROWS_AT, SUMS_AT, TRIES_AT,
    UNAUDITED_AT,
};
use crate::sound::check_records;
use ledger::{StoredMeasure, Tally};
use octets::read_be;
use stores::IMAGE_SIZE;

impl Image {
    // The image in bytes, if they are sound; and what is read is written as the same bytes.
    pub fn read(bytes: &[u8]) -> Result<Image, Flaw>
        ensures value { read_seen result ≡ image_read bytes.now }
        ensures back { WrittenBack bytes.now }
    {
        read_sized(bytes.as_array().ok_or(Flaw::Size)?)
    }
}

// The image in bytes of its size, if they are sound.
#[tactic(auto, unfolding(crate::specs::Sound::sized_read))]
fn read_sized(bytes: &[u8; IMAGE_SIZE]) -> Result<Image, Flaw>
    ensures { read_seen result ≡ sized_read bytes.now }
{
    check_records(bytes)?;
    let image = fields_in(bytes);
    image.check()?;
    Ok(image)
}

// The image in its bytes.
fn fields_in(bytes: &[u8; IMAGE_SIZE]) -> Image
    ensures { meaning result ≡ image_in bytes.now }
{
    Image {
        counters: tally_in(&bytes[COUNTERS_AT..SUMS_AT]),
        sums: tally_in(&bytes[SUMS_AT..MONEY_KIND_AT]),
        unaudited: read_be(&bytes[UNAUDITED_AT..LIMIT_AT]).unwrap(),
        limit: read_be(&bytes[LIMIT_AT..MARK_AT]).unwrap(),
        mark: mark_in(bytes),
        pin: field_at(bytes, PIN_AT),
        tries: bytes[TRIES_AT],
        rows: tally_in(&bytes[ROWS_AT..LAST_KIND_AT]),
        last: last_in(bytes),
        key_version: u32::from_be_bytes(field_at(bytes, KEY_AT)),
    }
}

// The tally in bytes of its length.
fn tally_in<M: StoredMeasure>(bytes: &[u8]) -> Tally<M>
    requires { length bytes.now ≡ 2 * (M.each * M.count) }
    ensures { sides M.numbers result ≡ sides_in M.each M.count bytes.now }
{
    Tally::read(bytes).unwrap()
}

// The mark in the bytes of an image.
fn mark_in(bytes: &[u8; IMAGE_SIZE]) -> Option<Mark>
    ensures { result ≡ mark_in bytes.now }
{
    (bytes[MARK_AT] != 0).then(|| Mark {
        counter: u32::from_be_bytes(field_at(bytes, MARK_COUNTER_AT)),
        amount: read_be(&bytes[MARK_AMOUNT_AT..PIN_KIND_AT]).unwrap(),
    })
}

// The last answer in the bytes of an image.
fn last_in(bytes: &[u8; IMAGE_SIZE]) -> Option<[u8; ANSWER_SIZE]>
    ensures { result ≡ last_in bytes.now }
{
    (bytes[LAST_AT] != 0).then_some(field_at(bytes, ANSWER_AT))
}

// The bytes of a field.
fn field_at<const N: usize>(bytes: &[u8; IMAGE_SIZE], at: usize) -> [u8; N]
    requires { at + N ≤ image_size }
    ensures { result ≡ part at N bytes.now }
{
    *bytes[at..].first_chunk().unwrap()
}
