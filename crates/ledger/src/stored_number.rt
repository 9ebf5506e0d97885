// A count of invoices, stored.
ghost use Rattle.std.proofs.Common.{rules};
ghost use Rattle.measures.specs.Sizes.{number_size};

use crate::stored::{read_number, write_number};
use crate::storing::StoredMeasure;
use measures::Number;
use measures::sizes::NUMBER_SIZE;
use octets::DoesNotFit;

// As for `Money`: one text for both would need a trait with these two functions for u32 and u64, beyond `Addend`.
impl StoredMeasure for Number {
    const WIDTH: usize = NUMBER_SIZE;

    ghost each = { number_size };

    ghost WIDTH = { number_size };

    ghost width = { Prim.search rules };

    ghost room = { Prim.search rules };

    fn write(&self, out: &mut [u8]) -> Result<(), DoesNotFit> {
        write_number::<NUMBER_SIZE>(out, u64::from(self.value()))
    }

    fn read(bytes: &[u8]) -> Option<Number> {
        // By `as`: four bytes write a u32.
        Some(Number::new(read_number::<NUMBER_SIZE>(bytes)? as u32))
    }
}
