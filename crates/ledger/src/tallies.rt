// Tallies: one measure for sales and one for refunds.
ghost use Rattle.std.specs.Prelude.{◌≡◌, ◌*◌, replicate, Some, Ok};
ghost use Rattle.std.specs.Option.{option_map};
ghost use Rattle.octets.specs.Fits.{fits};
ghost use Rattle.measures.specs.Bodies.{said};
ghost use Rattle.ledger.specs.Sides.{sides, own_side, other_side, side_fits, tallied, packed_sides, sides_in, sides_sized, sides_read, sides_written};

use crate::storing::StoredMeasure;
use measures::{Invoice, Measure, Transaction};
use octets::DoesNotFit;

#[derive(Clone, Copy)]
pub struct Tally<M> {
    pub sale: M,
    pub refund: M,
}

impl<M: Measure> Tally<M> {
    // A tally that has counted nothing.
    pub fn zero() -> Tally<M>
        ensures { sides M.numbers result ≡ (replicate M.count 0, replicate M.count 0) }
    {
        Tally {
            sale: M::zero(),
            refund: M::zero(),
        }
    }

    // The side of a transaction.
    pub fn side(&self, transaction: Transaction) -> &M
        ensures { result.now ≡ own_side transaction (self.now.sale, self.now.refund) }
    {
        match transaction {
            Transaction::Sale => &self.sale,
            Transaction::Refund => &self.refund,
        }
    }

    // Whether an invoice fits the side of its transaction.
    pub fn fits(&self, invoice: &Invoice) -> bool
        ensures { result ≡ side_fits M.counted (sides M.numbers self.now) (said invoice.now) }
    {
        self.side(invoice.transaction).fits(invoice)
    }

    // Counts an invoice on the side of its transaction; one that does not fit is ignored. The other side stays as it
    // was.
    pub fn add(&mut self, invoice: &Invoice)
        ensures after { sides M.numbers self.new ≡ tallied M.counted (sides M.numbers self.old) (said invoice.now) }
        ensures other { other_side invoice.now.transaction (self.new.sale, self.new.refund) ≡ other_side invoice.now.transaction (self.old.sale, self.old.refund) }
    {
        // A function that lends a side to be written would need a starred clause.
        match invoice.transaction {
            Transaction::Sale => self.sale.add(invoice),
            Transaction::Refund => self.refund.add(invoice),
        }
    }
}

impl<M: StoredMeasure> Tally<M> {
    // The bytes of the tally: twice those of its measure. Clauses say them by this formula, since a call is no part of a
    // clause.
    pub fn stored_width() -> usize
        ensures { result ≡ 2 * (M.each * M.count) }
    {
        2 * M::WIDTH
    }

    // Writes the sale side and then the refund side over the whole of `out`; one of another length is refused, and left
    // as it was.
    pub fn write(&self, out: &mut [u8]) -> Result<(), DoesNotFit>
        ensures value { result ≡ fits (sides_sized M.each M.count out.old) }
        ensures after { out.new ≡ sides_written M.each M.count (sides M.numbers self.now) out.old }
        ensures back { result ≡ Ok tt → sides_in M.each M.count out.new ≡ sides M.numbers self.now }
    {
        if out.len() != Self::stored_width() {
            return Err(DoesNotFit);
        }
        let (sale, refund) = out.split_at_mut(M::WIDTH);
        self.sale.write(sale)?;
        self.refund.write(refund)
    }

    // The tally in bytes; none where they are of another length.
    pub fn read(bytes: &[u8]) -> Option<Tally<M>>
        ensures value { option_map (sides M.numbers) result ≡ sides_read M.each M.count bytes.now }
        ensures back { (t : Tally M) → result ≡ Some t → packed_sides M.each (sides M.numbers t) ≡ bytes.now }
    {
        if bytes.len() != Self::stored_width() {
            return None;
        }
        let (sale, refund) = bytes.split_at(M::WIDTH);
        // A `?` could let go of the first side, for which `M` would have to be `Drop`.
        let sale = M::read(sale).unwrap();
        let refund = M::read(refund).unwrap();
        Some(Tally { sale, refund })
    }
}
