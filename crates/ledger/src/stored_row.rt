// A row of sums, stored.
ghost use Rattle.std.specs.Prelude.{◌≡◌, ◌*◌, List, ℕ, Some};
ghost use Rattle.std.specs.List.{flat_map};
ghost use Rattle.std.proofs.Common.{rules};
ghost use Rattle.measures.specs.Sizes.{money_size, id_count};
ghost use Rattle.ledger.specs.Stored.{fields, packed, stored_read};

use crate::stored::copy_whole;
use crate::storing::StoredMeasure;
use measures::Row;
use measures::sizes::{ID_COUNT, MONEY_SIZE};
use octets::DoesNotFit;

impl StoredMeasure for Row {
    const WIDTH: usize = ID_COUNT * MONEY_SIZE;

    ghost each = { money_size };

    ghost WIDTH = { id_count * money_size };

    ghost width = { Prim.search rules };

    ghost room = { Prim.search rules };

    fn write(&self, out: &mut [u8]) -> Result<(), DoesNotFit> {
        copy_whole(out, fields_of(self.values()).as_flattened())
    }

    fn read(bytes: &[u8]) -> Option<Row> {
        Some(Row::new(values_in(bytes)?))
    }
}

// The bytes of each number.
fn fields_of(values: [u64; ID_COUNT]) -> [[u8; MONEY_SIZE]; ID_COUNT]
    ensures value { flat_map (λ x. x) result ≡ packed money_size values }
    ensures back { fields money_size id_count (flat_map (λ x. x) result) ≡ values }
{
    values.map(u64::to_be_bytes)
}

// The numbers in bytes; none where they are of another length.
fn values_in(bytes: &[u8]) -> Option<[u64; ID_COUNT]>
    ensures value { result ≡ stored_read money_size id_count bytes.now }
    ensures back { (vs : List ℕ) → result ≡ Some vs → packed money_size vs ≡ bytes.now }
{
    let (fields, []) = bytes.as_chunks::<MONEY_SIZE>() else {
        return None;
    };
    Some(fields.as_array()?.map(u64::from_be_bytes))
}
