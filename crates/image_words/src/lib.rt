// An image in words, a line for each record.
#![tactic(auto)]

use image::{Image, Mark};
use ledger::Row;
use std::fmt;

// An image that is printed in words.
#[derive(Clone, Copy)]
pub struct InWords<'a>(pub &'a Image);

impl fmt::Display for InWords<'_> {
    fn fmt<W: fmt::Write>(&self, f: &mut fmt::Formatter<W>) -> fmt::Result {
        let image = self.0;
        write_tallies(f, image)?;
        write!(
            f,
            "02 unaudited amount: {}, limit {}; ",
            image.unaudited, image.limit
        )?;
        write_mark(f, image.mark)?;
        write_pin(f, image)?;
        write!(f, "04 rows: sales")?;
        write_row(f, &image.rows.sale)?;
        write!(f, "; refunds")?;
        write_row(f, &image.rows.refund)?;
        write_last(f, image)?;
        write!(f, "06 key version: {}", image.key_version)
    }
}

// The counters and sums, on a line.
fn write_tallies<W: fmt::Write>(f: &mut fmt::Formatter<W>, image: &Image) -> fmt::Result {
    let [sales, refunds] = [image.counters.sale.value(), image.counters.refund.value()];
    write!(f, "01 counters: sales {sales}, refunds {refunds}; ")?;
    let [sales, refunds] = [image.sums.sale.value(), image.sums.refund.value()];
    writeln!(f, "sums: sales {sales}, refunds {refunds}")
}

// The PIN and its tries left, on a line.
fn write_pin<W: fmt::Write>(f: &mut fmt::Formatter<W>, image: &Image) -> fmt::Result {
    write!(f, "03 PIN: ")?;
    for b in image.pin {
        f.write_char(char::from(b))?;
    }
    writeln!(f, ", tries left {}", image.tries)
}

// The mark, to the end of its line.
fn write_mark<W: fmt::Write>(f: &mut fmt::Formatter<W>, mark: Option<Mark>) -> fmt::Result {
    match mark {
        Some(m) => writeln!(f, "mark: counter {}, amount {}", m.counter, m.amount),
        None => writeln!(f, "no mark"),
    }
}

// The numbers of a row that are not zero, each behind its id.
fn write_row<W: fmt::Write>(f: &mut fmt::Formatter<W>, row: &Row) -> fmt::Result {
    let values = row.values();
    if values.iter().all(|v| *v == 0) {
        return write!(f, " none");
    }
    for (id, v) in (1u32..).zip(values) {
        if v > 0 {
            write!(f, " id {id} {v}")?;
        }
    }
    Ok(())
}

// The last answer, on a line of its own.
fn write_last<W: fmt::Write>(f: &mut fmt::Formatter<W>, image: &Image) -> fmt::Result {
    let last = image.last.map_or("none", |_| "kept");
    writeln!(f, "\n05 last answer: {last}")
}
