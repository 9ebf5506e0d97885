// Invoices in signing bodies, and the measures that count them.
#![tactic(auto)]

pub mod categories;
pub mod identifiers;
pub mod invoices;
pub mod measures;
pub mod row;
pub mod sizes;
pub mod sums;

pub use categories::Category;
pub use identifiers::is_identifier;
pub use invoices::{Invoice, Transaction, UnknownTransaction, is_signing_length};
pub use measures::Measure;
pub use row::Row;
pub use sums::{Addend, Money, Number, Sum};
