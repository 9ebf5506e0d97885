// A sum of amounts, stored.
ghost use Rattle.std.proofs.Common.{rules};
ghost use Rattle.measures.specs.Sizes.{money_size};

use crate::stored::{read_number, write_number};
use crate::storing::StoredMeasure;
use measures::Money;
use measures::sizes::MONEY_SIZE;
use octets::DoesNotFit;

// As for `Number`: one text for both would need a trait with these two functions for u32 and u64, beyond `Addend`.
impl StoredMeasure for Money {
    const WIDTH: usize = MONEY_SIZE;

    ghost each = { money_size };

    ghost WIDTH = { money_size };

    ghost width = { Prim.search rules };

    ghost room = { Prim.search rules };

    fn write(&self, out: &mut [u8]) -> Result<(), DoesNotFit> {
        write_number::<MONEY_SIZE>(out, self.value())
    }

    fn read(bytes: &[u8]) -> Option<Money> {
        Some(Money::new(read_number::<MONEY_SIZE>(bytes)?))
    }
}
