// The fields of a signing answer and of an answer of amounts, for those who reconcile.
ghost use Rattle.std.specs.Prelude.{◌≡◌, ◌+◌, ◌≤◌, Some, slice_index};
ghost use Rattle.std.specs.Option.{option_map};
ghost use Rattle.octets.specs.Big.{big};
ghost use Rattle.octets.specs.Parts.{part};
ghost use Rattle.measures.specs.Bodies.{transaction_said};
ghost use Rattle.measures.specs.Sizes.{number_size, transaction_at};
ghost use Rattle.answers.specs.Sizes.{signed_size};
ghost use Rattle.answers.specs.Fields.{Signed, signed, signed_bytes, signed_in, signed_as, signed_read, amounts_in, amounts_bytes, amounts_read};

use crate::sizes::{AMOUNTS_SIZE, BLOCK_AT, SEAL_AT, SIDE_AT, SIGNED_SIZE, TOTAL_AT};
use measures::Transaction;
use measures::sizes::{AMOUNT_AT, AMOUNT_SIZE, BUYER_AT, TAXPAYER_AT, TRANSACTION_AT, TYPE_AT};
use octets::read_be;

// What the data of an accepted signing, or of the last answer, says. Slices: as an array each would need an `unwrap` of a
// part whose length is known.
#[derive(Clone, Copy)]
pub struct SignedAnswer<'a> {
    pub date: &'a [u8],
    pub taxpayer: &'a [u8],
    pub buyer: &'a [u8],
    pub type_code: u8,
    pub transaction: Transaction,
    pub amount: u64,
    pub side_counter: u32,
    pub total_counter: u32,
    pub block: &'a [u8],
    pub seal: &'a [u8],
}

impl<'a> SignedAnswer<'a> {
    // The fields of a signing answer's data; none for data of another length, or with a transaction above 1.
    pub fn read(bytes: &'a [u8]) -> Option<SignedAnswer<'a>>
        ensures value { option_map signed result ≡ signed_read bytes.now }
        ensures back { (s : Signed) → option_map signed result ≡ Some s → signed_bytes s ≡ bytes.now }
    {
        signed_of(bytes)
    }
}

// What the data of an accepted amounts command says.
#[derive(Clone, Copy, PartialEq, Eq, Debug)]
pub struct AmountsAnswer {
    pub unaudited: u64,
    pub limit: u64,
}

impl AmountsAnswer {
    // The amounts in an amounts answer's data; none for data of another length.
    pub fn read(bytes: &[u8]) -> Option<AmountsAnswer>
        ensures value { result ≡ amounts_read bytes.now }
        ensures back { (a : AmountsAnswer) → result ≡ Some a → amounts_bytes a ≡ bytes.now }
    {
        Some(amounts_in(bytes.as_array()?))
    }
}

// The first clause of `read`, by itself: its second follows from it.
fn signed_of(bytes: &[u8]) -> Option<SignedAnswer<'_>>
    ensures { option_map signed result ≡ signed_read bytes.now }
{
    signed_in(bytes.as_array()?)
}

// The fields in data of the right length; none with a transaction above 1.
fn signed_in(bytes: &[u8; SIGNED_SIZE]) -> Option<SignedAnswer<'_>>
    ensures { option_map signed result ≡ signed_as bytes.now (transaction_said (slice_index bytes.now transaction_at)) }
{
    Some(SignedAnswer {
        date: &bytes[..TAXPAYER_AT],
        taxpayer: &bytes[TAXPAYER_AT..BUYER_AT],
        buyer: &bytes[BUYER_AT..TYPE_AT],
        type_code: bytes[TYPE_AT],
        transaction: Transaction::try_from(bytes[TRANSACTION_AT]).ok()?,
        amount: read_be(&bytes[AMOUNT_AT..SIDE_AT]).unwrap(),
        side_counter: counter_at(bytes, SIDE_AT),
        total_counter: counter_at(bytes, TOTAL_AT),
        block: &bytes[BLOCK_AT..SEAL_AT],
        seal: &bytes[SEAL_AT..],
    })
}

// The counter in the bytes from a place on, as the fields of an image are read: one for both would be a public function
// that asks for room.
fn counter_at(bytes: &[u8; SIGNED_SIZE], at: usize) -> u32
    requires { at + number_size ≤ signed_size }
    ensures { result ≡ big (part at number_size bytes.now) }
{
    u32::from_be_bytes(*bytes[at..].first_chunk().unwrap())
}

// The amounts in an amounts answer's data, which are all of it.
#[tactic(auto, using(crate::proofs::Joins::amounts_joined))]
fn amounts_in(bytes: &[u8; AMOUNTS_SIZE]) -> AmountsAnswer
    ensures value { result ≡ amounts_in bytes.now }
    ensures back { amounts_bytes result ≡ bytes.now }
{
    AmountsAnswer {
        unaudited: read_be(&bytes[..AMOUNT_SIZE]).unwrap(),
        limit: read_be(&bytes[AMOUNT_SIZE..]).unwrap(),
    }
}
