// The bytes of an image, as far as they are written: an array and a length, since a card has no heap.
ghost use Rattle.std.specs.Prelude.{◌≡◌, ℕ, ◌+◌, ◌*◌, ◌≤◌, List, [], ◌++◌, length, take};
ghost use Rattle.ledger.specs.Sides.{sides, packed_sides};
ghost use Rattle.stores.specs.Sizes.{image_size};
ghost use Rattle.image.specs.Fitting.{SidesFit};

use ledger::{StoredMeasure, Tally};
use octets::copy_at;
use std::marker::Model;
use stores::IMAGE_SIZE;

#[derive(Drop)]
pub(crate) struct Written {
    bytes: [u8; IMAGE_SIZE],
    len: usize,
}

impl Model for Written {
    ghost Value = { List ℕ };

    ghost view = { λ w. take w.len w.bytes };

    ghost invariant = { λ w. w.len ≤ image_size };
}

// Inlined, so that each place in an image is a constant.
impl Written {
    // Nothing written yet.
    #[inline(always)]
    pub(crate) fn new() -> Written
        ensures { result ≡ [] }
    {
        Written {
            bytes: [0; IMAGE_SIZE],
            len: 0,
        }
    }

    // Writes bytes behind what is written.
    #[inline(always)]
    pub(crate) fn put(&mut self, bytes: &[u8])
        requires { length self.old + length bytes.now ≤ image_size }
        ensures after { self.new ≡ self.old ++ bytes.now }
        ensures end { length self.new ≡ length self.old + length bytes.now }
    {
        copy_at(&mut self.bytes, self.len, bytes).unwrap();
        self.len += bytes.len();
    }

    // Writes both sides of a tally behind what is written.
    #[inline(always)]
    pub(crate) fn put_tally<M: StoredMeasure>(&mut self, tally: &Tally<M>)
        requires { length self.old + 2 * (M.each * M.count) ≤ image_size }
        ensures after { self.new ≡ self.old ++ packed_sides M.each (sides M.numbers tally.now) }
        ensures end { length self.new ≡ length self.old + 2 * (M.each * M.count) }
        ensures fits { SidesFit M.each M.count (sides M.numbers tally.now) }
    {
        let end = self.len + Tally::<M>::stored_width();
        tally.write(&mut self.bytes[self.len..end]).unwrap();
        self.len = end;
    }

    // All bytes.
    #[inline(always)]
    pub(crate) fn whole(&self) -> &[u8; IMAGE_SIZE]
        requires { length self.now ≡ image_size }
        ensures { result.now ≡ self.now }
    {
        &self.bytes
    }
}
