// Invoices, the measures that count them, and tallies.
use crate::shared::{put, same};
use ledger::{
    Invoice, Measure, Money, Number, Row, StoredMeasure, Tally, Transaction, is_identifier,
    is_signing_length,
};
use measures::{Addend, Sum};
use octets::DoesNotFit;
use std::test::Fail;

// A sale of 1500 with three categories: 1000 and 300 for id 1, and 200 for id 3.
const BODY: [u8; 82] = [
    0x00, 0x00, 0x01, 0x8b, 0xcf, 0xe5, 0x68, 0x00, 0x00, 0x00, 0x00, 0x00, 0x00, 0x00, 0x00, 0x00,
    0x00, 0x52, 0x53, 0x31, 0x32, 0x33, 0x34, 0x35, 0x36, 0x37, 0x38, 0x39, 0x00, 0x00, 0x00, 0x00,
    0x00, 0x00, 0x00, 0x00, 0x00, 0x00, 0x00, 0x00, 0x00, 0x00, 0x00, 0x00, 0x00, 0x00, 0x00, 0x00,
    0x00, 0x00, 0x00, 0x00, 0x00, 0x00, 0x00, 0x05, 0xdc, 0x03, 0x01, 0x00, 0x00, 0x00, 0x00, 0x00,
    0x03, 0xe8, 0x03, 0x00, 0x00, 0x00, 0x00, 0x00, 0x00, 0xc8, 0x01, 0x00, 0x00, 0x00, 0x00, 0x00,
    0x01, 0x2c,
];

// The invoice in the body.
fn invoice() -> Result<Invoice<'static>, Fail> {
    Ok(Invoice::read(&BODY).ok_or("no invoice")?)
}

// The transaction and amount of the invoice in the body, with other bytes in it; none where it is malformed.
fn read_with(at: usize, new: &[u8]) -> Option<(Transaction, u64)> {
    let mut body = BODY;
    put(&mut body, at, new);
    let invoice = Invoice::read(&body)?;
    Some((invoice.transaction, invoice.amount))
}

#[test]
fn invoice_of_a_body(rt: HostRuntime) -> Result<(), Fail> {
    let invoice = invoice()?;
    assert_eq!(rt; invoice.transaction, Transaction::Sale);
    assert_eq!(rt; invoice.amount, 1500);
    same(&rt, invoice.categories, &BODY[58..]);
    Ok(())
}

#[test]
fn other_good_bodies(rt: HostRuntime) {
    let sale = Some((Transaction::Sale, 1500));
    assert_eq!(rt; read_with(49, &[1]), Some((Transaction::Refund, 1500)));
    assert_eq!(rt; read_with(0, &[0xff; 8]), sale);
    assert_eq!(rt; read_with(8, &[0x7e; 20]), sale);
    assert_eq!(rt; read_with(47, &[0x41]), sale);
    assert_eq!(rt; read_with(48, &[4]), sale);
    assert_eq!(rt; read_with(74, &[12]), sale);
    let largest = Some((Transaction::Sale, 72057594037927935));
    assert_eq!(rt; read_with(50, &[0xff; 7]), largest);
}

#[test]
fn bodies_with_bad_codes(rt: HostRuntime) {
    assert_eq!(rt; read_with(57, &[2]), None);
    assert_eq!(rt; read_with(57, &[4]), None);
    assert_eq!(rt; read_with(58, &[0]), None);
    assert_eq!(rt; read_with(74, &[13]), None);
    assert_eq!(rt; read_with(48, &[5]), None);
    assert_eq!(rt; read_with(49, &[2]), None);
}

#[test]
fn bodies_with_bad_identifiers(rt: HostRuntime) {
    assert_eq!(rt; read_with(8, &[0; 20]), None);
    assert_eq!(rt; read_with(27, &[0x00]), None);
    assert_eq!(rt; read_with(27, &[0x7f]), None);
    assert_eq!(rt; read_with(46, &[0x41, 0x00]), None);
    assert_eq!(rt; read_with(47, &[0x1f]), None);
}

#[test]
fn bodies_of_bad_lengths(rt: HostRuntime) {
    assert!(rt; Invoice::read(&BODY[..81]).is_none());
    assert!(rt; Invoice::read(&BODY[..74]).is_none());
    assert!(rt; Invoice::read(&[]).is_none());
    assert!(rt; !is_signing_length(57) && is_signing_length(58) && !is_signing_length(59));
    assert!(rt; is_signing_length(66) && is_signing_length(154) && !is_signing_length(162));
}

// Checks whether 20 bytes, zeros but for the last two, are an identifier.
fn last_two(bytes: [u8; 2]) -> bool {
    let mut identifier = [0; 20];
    put(&mut identifier, 18, &bytes);
    is_identifier(&identifier)
}

#[test]
fn identifiers(rt: HostRuntime) {
    assert!(rt; is_identifier(&[0; 20]));
    assert!(rt; is_identifier(&[0x7e; 20]));
    let good = [last_two([0, 0x41]), last_two([0, 0x20])];
    assert_eq!(rt; good, [true, true]);
    let bad = [
        last_two([0x41, 0]),
        last_two([0, 0x1f]),
        last_two([0, 0x7f]),
    ];
    assert_eq!(rt; bad, [false, false, false]);
    assert!(rt; !is_identifier(&[0x41; 19]));
}

#[test]
fn sale_adds_to_the_counters_and_sums(rt: HostRuntime) -> Result<(), Fail> {
    let invoice = invoice()?;
    let mut counters: Tally<Number> = Tally::zero();
    let mut sums: Tally<Money> = Tally::zero();
    assert!(rt; counters.fits(&invoice) && sums.fits(&invoice));
    counters.add(&invoice);
    sums.add(&invoice);
    assert_eq!(rt; (counters.sale.value(), counters.refund.value()), (1, 0));
    assert_eq!(rt; (sums.sale.value(), sums.refund.value()), (1500, 0));
    let mut count = [0xee; 8];
    assert_eq!(rt; counters.write(&mut count), Ok(()));
    assert_eq!(rt; count, [0, 0, 0, 1, 0, 0, 0, 0]);
    let mut sum = [0xee; 16];
    assert_eq!(rt; sums.write(&mut sum), Ok(()));
    assert_eq!(rt; sum, [0, 0, 0, 0, 0, 0, 5, 0xdc, 0, 0, 0, 0, 0, 0, 0, 0]);
    Ok(())
}

#[test]
fn sale_adds_to_the_row(rt: HostRuntime) -> Result<(), Fail> {
    let invoice = invoice()?;
    let mut rows: Tally<Row> = Tally::zero();
    assert!(rt; rows.fits(&invoice));
    rows.add(&invoice);
    assert_eq!(rt;
        rows.sale.values(),
        [1300, 0, 200, 0, 0, 0, 0, 0, 0, 0, 0, 0]
    );
    assert_eq!(rt; rows.refund.values(), [0; 12]);
    let mut bytes = [0xee; 96];
    assert_eq!(rt; rows.sale.write(&mut bytes), Ok(()));
    let mut expected = [0; 96];
    put(&mut expected, 6, &[0x05, 0x14]);
    put(&mut expected, 23, &[0xc8]);
    same(&rt, &bytes, &expected);
    Ok(())
}

// An invoice of a sale.
fn sale(amount: u64, categories: &[u8]) -> Invoice<'_> {
    Invoice {
        transaction: Transaction::Sale,
        amount,
        categories,
    }
}

// Whether an invoice fits a sum that stands at a value, and the value after it.
fn after<T: Addend>(value: T, invoice: &Invoice) -> (bool, T) {
    let mut sum = Sum::new(value);
    let fits = sum.fits(invoice);
    sum.add(invoice);
    (fits, sum.value())
}

// The numbers of a row, of which only that of id 5 is not zero.
fn fifth(value: u64) -> [u64; 12] {
    [0, 0, 0, 0, value, 0, 0, 0, 0, 0, 0, 0]
}

#[test]
fn what_fits_a_number_and_a_sum(rt: HostRuntime) {
    let invoice = sale(3, &[]);
    assert_eq!(rt; after(4294967294u32, &invoice), (true, 4294967295));
    assert_eq!(rt; after(4294967295u32, &invoice), (false, 4294967295));
    let near = 18446744073709551605u64;
    let full = 18446744073709551615;
    assert_eq!(rt; after(near, &sale(10, &[])), (true, full));
    assert_eq!(rt; after(near, &sale(11, &[])), (false, near));
    assert_eq!(rt; after(full, &sale(0, &[])), (true, full));
}

#[test]
fn what_fits_a_row(rt: HostRuntime) {
    let near = 18446744073709551605;
    let full = 18446744073709551615;
    let ten = [5, 0, 0, 0, 0, 0, 0, 6, 5, 0, 0, 0, 0, 0, 0, 4];
    assert_eq!(rt; after(fifth(near), &sale(0, &ten)), (true, fifth(full)));
    let eleven = [5, 0, 0, 0, 0, 0, 0, 6, 5, 0, 0, 0, 0, 0, 0, 5];
    assert_eq!(rt; after(fifth(near), &sale(0, &eleven)), (false, fifth(near)));
    let nothing = [5, 0, 0, 0, 0, 0, 0, 0];
    assert_eq!(rt; after(fifth(full), &sale(0, &nothing)), (true, fifth(full)));
    let unknown = [13, 0, 0, 0, 0, 0, 0, 0];
    assert_eq!(rt; after([0; 12], &sale(0, &unknown)), (false, [0; 12]));
    let foreign = [1, 0, 0, 0, 0, 0, 0, 7, 0, 0, 0, 0, 0, 0, 0, 0];
    assert_eq!(rt; after([0; 12], &sale(0, &foreign)), (false, [0; 12]));
}

#[test]
fn full_sale_side_does_not_bar_a_refund(rt: HostRuntime) {
    let mut counters = Tally {
        sale: Number::new(u32::MAX),
        refund: Number::new(7),
    };
    let mut invoice = sale(3, &[]);
    assert!(rt; !counters.fits(&invoice));
    counters.add(&invoice);
    invoice.transaction = Transaction::Refund;
    assert!(rt; counters.fits(&invoice));
    counters.add(&invoice);
    assert_eq!(rt;
        (counters.sale.value(), counters.refund.value()),
        (u32::MAX, 8)
    );
}

#[test]
fn other_widths_are_neither_read_nor_written(rt: HostRuntime) {
    let mut five = [0xee; 5];
    let refused = Err(DoesNotFit);
    assert_eq!(rt; Number::new(1).write(&mut five), refused);
    assert_eq!(rt; Money::new(1).write(&mut five), refused);
    assert_eq!(rt; Row::new([1; 12]).write(&mut five), refused);
    assert_eq!(rt; five, [0xee; 5]);
    assert!(rt; Number::read(&five).is_none());
    assert!(rt; Money::read(&five).is_none());
    assert!(rt; Row::read(&[0; 95]).is_none());
}
