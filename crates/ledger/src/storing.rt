// What it is to be a measure that is stored.
ghost use Rattle.std.specs.Prelude.{◌≡◌, ℕ, ◌*◌, ◌^◌, ◌<◌, Some, Ok};
ghost use Rattle.std.specs.Option.{option_map};
ghost use Rattle.octets.specs.Fits.{fits};
ghost use Rattle.ledger.specs.Stored.{fields, packed, sized, stored_read, stored_written};

use measures::Measure;
use octets::DoesNotFit;

pub trait StoredMeasure: Measure {
    // the bytes of each number
    ghost each: { ℕ };

    // the bytes of the measure
    ghost WIDTH: { ℕ };

    const WIDTH: usize;

    // Writes the measure over the whole of `out`; one of another length is refused, and left as it was.
    fn write(&self, out: &mut [u8]) -> Result<(), DoesNotFit>
        ensures value { result ≡ fits (sized each Self.count out.old) }
        ensures after { out.new ≡ stored_written each Self.count (Self.numbers self.now) out.old }
        ensures back { result ≡ Ok tt → fields each Self.count out.new ≡ Self.numbers self.now };

    // The measure in bytes; none where they are of another length.
    fn read(bytes: &[u8]) -> Option<Self>
        ensures value { option_map Self.numbers result ≡ stored_read each Self.count bytes.now }
        ensures back { (m : Self) → result ≡ Some m → packed each (Self.numbers m) ≡ bytes.now };

    // The bytes are those of all numbers, and the machine can count twice as many.
    ghost width: { WIDTH ≡ each * Self.count };

    ghost room: { WIDTH < 2 ^ 63 };
}
