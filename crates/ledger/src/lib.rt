// Invoices in signing bodies, the measures that count them, and tallies of sales and refunds.
#![tactic(auto)]

mod stored;
pub mod stored_money;
pub mod stored_number;
pub mod stored_row;
pub mod storing;
pub mod tallies;

pub use measures::{
    Addend, Category, Invoice, Measure, Money, Number, Row, Sum, Transaction, UnknownTransaction,
    is_identifier, is_signing_length, sizes,
};
pub use octets::DoesNotFit;
pub use storing::StoredMeasure;
pub use tallies::Tally;
