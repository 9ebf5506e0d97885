// What the tests share: bytes to work on, and parts of them.
use octets::copy_at;
use std::process::Abort;

// Fills bytes: they count up from a first one, and start again after 250. `ladder` has a loop of its own: one over an
// iterator that is given did not prove.
pub(crate) fn count_up(bytes: &mut [u8], first: usize) {
    let numbers = (0..251u8).cycle().skip(first % 251);
    for (byte, number) in bytes.iter_mut().zip(numbers) {
        *byte = number;
    }
}

// The part of that length from `at` on; nothing where bytes have no such part. For arrays that a call has changed, of
// which `[..n]` often did not prove its bounds.
pub(crate) fn part(bytes: &[u8], at: usize, len: usize) -> &[u8] {
    bytes.get(at..at.saturating_add(len)).unwrap_or(&[])
}

// The other test crate has the two below as well: a crate for two functions would be longer.

// Puts bytes in the place of others. Where there is no room nothing is put, and the test then fails at what it
// compares.
pub(crate) fn put(bytes: &mut [u8], at: usize, new: &[u8]) {
    let _ = copy_at(bytes, at, new);
}

// Checks that bytes are the same: `assert_eq!` alone does not compare an array with a slice.
pub(crate) fn same(rt: &impl Abort, left: &[u8], right: &[u8]) {
    assert_eq!(rt; left, right);
}
