// Numbers of several bytes, the highest byte first, and copies into a part of a buffer.
#![tactic(auto)]

ghost use Rattle.std.specs.Prelude.{◌≡◌, ℕ, ◌^◌, ◌<◌, ◌≤◌, length, Some, Ok};
ghost use Rattle.octets.specs.Big.{be, big, number_read, writable, number_written};
ghost use Rattle.octets.specs.Fits.{fits, no_fit_text};
ghost use Rattle.octets.specs.Parts.{inside, copied};

use std::error::Error;
use std::fmt;

// What is to be written does not fit its place, in which nothing is written then.
#[derive(Clone, Copy, PartialEq, Eq, Debug)]
pub struct DoesNotFit;

impl fmt::Display for DoesNotFit {
    ghost output = { λ _. Some no_fit_text };

    fn fmt<W: fmt::Write>(&self, f: &mut fmt::Formatter<W>) -> fmt::Result {
        f.pad("does not fit")
    }
}

impl Error for DoesNotFit {}

// The number that bytes write, of any width up to eight bytes; none for more.
pub fn read_be(bytes: &[u8]) -> Option<u64>
    ensures value { result ≡ number_read bytes.now }
    ensures bound { (v : ℕ) → result ≡ Some v → v < 256 ^ length bytes.now }
    ensures back { (v : ℕ) → result ≡ Some v → be (length bytes.now) v ≡ bytes.now }
{
    // Not by `then`: that there are at most eight bytes is not known in a closure.
    if bytes.len() > 8 {
        None
    } else {
        Some(value_of(bytes))
    }
}

// The number that at most eight bytes write.
fn value_of(bytes: &[u8]) -> u64
    requires { length bytes.now ≤ 8 }
    ensures value { result ≡ big bytes.now }
    ensures bound { result < 256 ^ length bytes.now }
    ensures back { be (length bytes.now) result ≡ bytes.now }
{
    let mut v: u64 = 0;
    for b in bytes {
        v = v * 256 + u64::from(*b);
    }
    v
}

// Writes a number over the whole of `out`, of any width up to eight bytes. One that needs more bytes, or a wider `out`,
// is refused, and leaves `out` as it was.
pub fn write_be(out: &mut [u8], v: u64) -> Result<(), DoesNotFit>
    ensures value { result ≡ fits (writable (length out.old) v) }
    ensures after { out.new ≡ number_written v out.old }
    ensures back { result ≡ Ok tt → number_read out.new ≡ Some v }
{
    if !has_width(v, out.len()) {
        return Err(DoesNotFit);
    }
    put_low_bytes(out, v);
    Ok(())
}

// Whether a number can be written into that many bytes.
fn has_width(v: u64, width: usize) -> bool
    ensures { result ≡ writable width v }
{
    if width < 8 {
        // By `as`: the width is below 8.
        v < 256u64.pow(width as u32)
    } else {
        width == 8
    }
}

// Writes the lowest bytes of a number over the whole of `out`.
fn put_low_bytes(out: &mut [u8], v: u64)
    requires { length out.old ≤ 8 }
    ensures after { out.new ≡ be (length out.old) v }
    ensures back { v < 256 ^ length out.old → big out.new ≡ v }
{
    let bytes = v.to_be_bytes();
    let width = out.len();
    out.copy_from_slice(&bytes[8 - width..8]);
}

// Copies `new` into `buffer` from `at` on. Where there is no room for all of it, it is refused, and nothing is written.
pub fn copy_at(buffer: &mut [u8], at: usize, new: &[u8]) -> Result<(), DoesNotFit>
    ensures value { result ≡ fits (inside at (length new.now) buffer.old) }
    ensures after { buffer.new ≡ copied at new.now buffer.old }
{
    let (_, rest) = buffer.split_at_mut_checked(at).ok_or(DoesNotFit)?;
    let (place, _) = rest.split_at_mut_checked(new.len()).ok_or(DoesNotFit)?;
    place.copy_from_slice(new);
    Ok(())
}
