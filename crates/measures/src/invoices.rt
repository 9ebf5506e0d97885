// Invoices: what the measures use of a signing body.
ghost use Rattle.std.specs.Prelude.{◌≡◌, ◌≤◌, true, false, cond, length, drop, Some, None, slice_index, MatchOption};
ghost use Rattle.std.specs.Option.{option_map, ok_or};
ghost use Rattle.octets.specs.Big.{big};
ghost use Rattle.octets.specs.Parts.{part};
ghost use Rattle.measures.specs.Sizes.{head_size, transaction_at, amount_at, amount_size};
ghost use Rattle.measures.specs.Bodies.{said, transaction_byte, transaction_said, unknown_text, signing_length, count_right, parties_good, others_good, fields_good, taxpayer, said_in, invoice_read};

use crate::categories::{are_ids_known, each_category};
use crate::identifiers::{is_identifier, is_named};
use crate::sizes::{
    AMOUNT_AT, BUYER_AT, CATEGORY_SIZE, COUNT_AT, HEAD_SIZE, ID_COUNT, LAST_TYPE, TAXPAYER_AT,
    TRANSACTION_AT, TYPE_AT,
};
use octets::read_be;
use std::error::Error;
use std::fmt;

#[derive(Clone, Copy, PartialEq, Eq, Debug)]
pub enum Transaction {
    Sale = 0,
    Refund = 1,
}

// A byte of no transaction. A type of its own beside the one of status words: its text is another.
#[derive(Clone, Copy, PartialEq, Eq, Debug)]
pub struct UnknownTransaction {
    pub value: u8,
}

// The byte of a transaction.
impl From<Transaction> for u8 {
    ghost from_gives = { λ t b. b ≡ transaction_byte t };

    fn from(transaction: Transaction) -> u8 {
        transaction as u8
    }
}

// The transaction that a byte says. Each value stands once more: a number has no other way back to its case.
impl TryFrom<u8> for Transaction {
    type Error = UnknownTransaction;

    ghost try_from_gives = { λ b r. r ≡ ok_or (transaction_said b) (record { value = b }) };

    fn try_from(value: u8) -> Result<Transaction, UnknownTransaction> {
        match value {
            0 => Ok(Transaction::Sale),
            1 => Ok(Transaction::Refund),
            _ => Err(UnknownTransaction { value }),
        }
    }
}

impl fmt::Display for UnknownTransaction {
    ghost output = { λ u. Some (unknown_text u) };

    fn fmt<W: fmt::Write>(&self, f: &mut fmt::Formatter<W>) -> fmt::Result {
        write!(f, "no transaction has the byte {}", self.value)
    }
}

impl Error for UnknownTransaction {}

#[derive(Clone, Copy)]
pub struct Invoice<'a> {
    pub transaction: Transaction,
    pub amount: u64,
    pub categories: &'a [u8],
}

impl<'a> Invoice<'a> {
    // The invoice in a signing body; none where the body is not well-formed.
    pub fn read(body: &'a [u8]) -> Option<Invoice<'a>>
        ensures { option_map said result ≡ invoice_read body.now }
    {
        Body::of(body)?.invoice()
    }
}

// Whether a signing body may have that many bytes.
pub fn is_signing_length(n: usize) -> bool
    ensures { result ≡ signing_length n }
{
    let fits = |list: usize| {
        list.is_multiple_of(CATEGORY_SIZE) && list / CATEGORY_SIZE <= ID_COUNT
    };
    n.checked_sub(HEAD_SIZE).is_some_and(fits)
}

// A body of a good length.
#[derive(Clone, Copy)]
struct Body<'a> {
    bytes: &'a [u8],
    ghost has_head: { head_size ≤ length bytes.now },
}

impl<'a> Body<'a> {
    // The body in bytes; none where they are of another length.
    fn of(bytes: &'a [u8]) -> Option<Body<'a>>
        ensures { MatchOption result (signing_length (length bytes.now) ≡ false) (λ b. (signing_length (length bytes.now) ≡ true) × (b.bytes.now ≡ bytes.now)) }
    {
        // Not by `then`: the ghost field follows from the test, which a closure does not know.
        if !is_signing_length(bytes.len()) {
            return None;
        }
        Some(Body { bytes })
    }

    // The invoice in the body; none where a field is not good.
    fn invoice(&self) -> Option<Invoice<'a>>
        ensures { option_map said result ≡ cond (fields_good self.now.bytes.now) (Some (said_in self.now.bytes.now)) None }
    {
        let transaction = self.transaction()?;
        if !self.are_fields_good() {
            return None;
        }
        Some(Invoice {
            transaction,
            amount: self.amount(),
            categories: self.categories(),
        })
    }

    // Whether the fields are all good but for the transaction.
    fn are_fields_good(&self) -> bool
        ensures { result ≡ others_good self.now.bytes.now }
    {
        self.is_count_right()
            && are_ids_known(each_category(self.categories()))
            && self.bytes[TYPE_AT] <= LAST_TYPE
            && self.are_parties_good()
    }

    // Whether the count is that of the categories.
    fn is_count_right(&self) -> bool
        ensures { result ≡ count_right self.now.bytes.now }
    {
        usize::from(self.bytes[COUNT_AT]) == (self.bytes.len() - HEAD_SIZE) / CATEGORY_SIZE
    }

    // Whether the taxpayer is named, and the buyer identifier is good.
    fn are_parties_good(&self) -> bool
        ensures { result ≡ parties_good self.now.bytes.now }
    {
        let bytes = self.bytes;
        is_taxpayer(&bytes[TAXPAYER_AT..BUYER_AT]) && is_identifier(&bytes[BUYER_AT..TYPE_AT])
    }

    // The transaction; none where it is not known.
    fn transaction(&self) -> Option<Transaction>
        ensures { result ≡ transaction_said (slice_index self.now.bytes.now transaction_at) }
    {
        Transaction::try_from(self.bytes[TRANSACTION_AT]).ok()
    }

    // The amount.
    fn amount(&self) -> u64
        ensures { result ≡ big (part amount_at amount_size self.now.bytes.now) }
    {
        let bytes = self.bytes;
        read_be(&bytes[AMOUNT_AT..COUNT_AT]).unwrap()
    }

    // The part that holds the categories.
    fn categories(&self) -> &'a [u8]
        ensures { result.now ≡ drop head_size self.now.bytes.now }
    {
        let (_, categories) = self.bytes.split_at(HEAD_SIZE);
        categories
    }
}

// Whether bytes are a good identifier that names someone.
fn is_taxpayer(bytes: &[u8]) -> bool
    ensures { result ≡ taxpayer bytes.now }
{
    is_identifier(bytes) && is_named(bytes)
}
