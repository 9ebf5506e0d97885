// Bytes and numbers that are written over the whole of a place.
ghost use Rattle.std.specs.Prelude.{◌≡◌, ℕ, ◌^◌, ◌<◌, ◌≤◌, ◌==◌, cond, [], ◌∷◌, length, Some, Ok};
ghost use Rattle.std.specs.Option.{option_map};
ghost use Rattle.octets.specs.Fits.{fits};
ghost use Rattle.ledger.specs.Stored.{fields, packed, sized, stored_read, stored_written};

use octets::{DoesNotFit, copy_at, read_be, write_be};

// Copies bytes over the whole of `out`; one of another length is refused, and left as it was.
#[tactic(auto, using(crate::proofs::Fields::whole_after, crate::proofs::Fields::whole_back))]
pub(crate) fn copy_whole(out: &mut [u8], bytes: &[u8]) -> Result<(), DoesNotFit>
    ensures value { result ≡ fits (length out.old == length bytes.now) }
    ensures after { out.new ≡ cond (length out.old == length bytes.now) bytes.now out.old }
    ensures back { result ≡ Ok tt → out.new ≡ bytes.now }
{
    if out.len() != bytes.len() {
        return Err(DoesNotFit);
    }
    copy_at(out, 0, bytes)
}

// Writes a number of N bytes over the whole of `out`; one of another length is refused, and left as it was.
#[tactic(auto, using(crate::proofs::Fields::one_value, crate::proofs::Fields::one_written, crate::proofs::Fields::one_back))]
pub(crate) fn write_number<const N: usize>(out: &mut [u8], v: u64) -> Result<(), DoesNotFit>
    requires width { N ≤ 8 }
    requires below { v < 256 ^ N }
    ensures value { result ≡ fits (sized N 1 out.old) }
    ensures after { out.new ≡ stored_written N 1 (v ∷ []) out.old }
    ensures back { result ≡ Ok tt → fields N 1 out.new ≡ v ∷ [] }
{
    if out.len() != N {
        return Err(DoesNotFit);
    }
    write_be(out, v)
}

// The number of N bytes in bytes; none where they are of another length.
#[tactic(auto, using(crate::proofs::Fields::one_read, crate::proofs::Fields::one_bytes))]
pub(crate) fn read_number<const N: usize>(bytes: &[u8]) -> Option<u64>
    requires { N ≤ 8 }
    ensures value { option_map (λ v. v ∷ []) result ≡ stored_read N 1 bytes.now }
    ensures bound { (v : ℕ) → result ≡ Some v → v < 256 ^ N }
    ensures back { (v : ℕ) → result ≡ Some v → packed N (v ∷ []) ≡ bytes.now }
{
    if bytes.len() != N {
        return None;
    }
    read_be(bytes)
}
