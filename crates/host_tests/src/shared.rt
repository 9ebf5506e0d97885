// What the tests share: bytes to work on, and an invoice.
use octets::copy_at;
use std::alloc::{AllocError, Global};
use std::process::Abort;

// The other test crate has the two below as well: a crate for two functions would be longer.

// Puts bytes in the place of others. Where there is no room nothing is put, and the test then fails at what it
// compares.
pub(crate) fn put(bytes: &mut [u8], at: usize, new: &[u8]) {
    let _ = copy_at(bytes, at, new);
}

// Checks that bytes are the same: `assert_eq!` alone does not compare an array with a slice.
pub(crate) fn same(rt: &impl Abort, left: &[u8], right: &[u8]) {
    assert_eq!(rt; left, right);
}

// A signing body with so many categories, of the ids from 1 on.
pub(crate) fn invoice(heap: Global, categories: u8) -> Result<Vec<u8>, AllocError> {
    let mut body = [0; 58];
    put(
        &mut body,
        0,
        &[0x00, 0x00, 0x01, 0x8f, 0x2b, 0x6c, 0x1c, 0x00],
    );
    put(&mut body, 17, b"12345678901");
    put(&mut body, 43, b"BUYER");
    put(
        &mut body,
        48,
        &[4, 1, 0, 0, 0, 0, 0, 0x03, 0xe8, categories],
    );
    let mut body = Vec::from_slice(heap, &body)?;
    for id in 1..=categories {
        body.extend_from_slice(&[id, 0, 0, 0, 0, 0, 0, 0])?;
    }
    Ok(body)
}
