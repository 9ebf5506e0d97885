// The bench sealer: both rules follow from a key of 32 bits.
ghost use Rattle.std.specs.Prelude.{◌≡◌, fold};
ghost use Rattle.sealers.specs.Bench.{key_byte, mixed, top, covered, sealed, bench_cover, bench_seal};
ghost use Rattle.sealers.specs.Runs.{Begins};
ghost use Rattle.sealers.specs.Kept.{bench_keeps};

use crate::rules::{ANSWER_SIZE, BLOCK_SIZE, Sealer, check_room, place};
use status::CallError;

// What each step of a seal multiplies by.
const FACTOR: u32 = 16777619;

#[derive(Clone, Copy)]
pub struct BenchSealer {
    key: u32,
}

impl BenchSealer {
    // The bench sealer with that key.
    pub fn new(key: u32) -> BenchSealer
        ensures key { result.key ≡ key }
        ensures known { Begins }
    {
        BenchSealer { key }
    }
}

impl Sealer for BenchSealer {
    ghost cover_rule = { λ s. bench_cover s.key };

    ghost seal_rule = { λ s. bench_seal s.key };

    ghost kept = { λ s. bench_keeps s.key };

    fn cover(&mut self, block: &[u8], out: &mut [u8]) -> Result<bool, CallError> {
        check_room(out)?;
        place(cover_of(self.key, block), out)
    }

    fn seal(&mut self, message: &[u8], out: &mut [u8]) -> Result<bool, CallError> {
        check_room(out)?;
        place(Some(seal_of(self.key, message)), out)
    }
}

// The cover of a block; none for another size.
fn cover_of(key: u32, block: &[u8]) -> Option<[u8; ANSWER_SIZE]>
    ensures { result ≡ bench_cover key block.now }
{
    let block = <&[u8; BLOCK_SIZE]>::try_from(block).ok()?;
    Some(joined(key, block))
}

// A block, each byte joined with a byte of the key.
fn joined(key: u32, block: &[u8; BLOCK_SIZE]) -> [u8; ANSWER_SIZE]
    ensures { result ≡ covered key block.now }
{
    let mut cover = *block;
    for (i, byte) in cover.iter_mut().enumerate() {
        *byte ^= key_byte(key, i);
    }
    cover
}

// The byte of the key that byte `i` of a block is joined with.
fn key_byte(key: u32, i: usize) -> u8
    ensures { result ≡ key_byte key i }
{
    key.to_be_bytes()[i % 4]
}

// The seal of a message: a byte after each step over 0, 1, 2 and so on.
fn seal_of(key: u32, message: &[u8]) -> [u8; ANSWER_SIZE]
    ensures { result ≡ sealed key message.now }
{
    let mut h = digest(key, message);
    let mut seal = [0; ANSWER_SIZE];
    // By `as`: where `iter_mut` goes through `zip`, no proof knows what is left in the array.
    for (j, byte) in seal.iter_mut().enumerate() {
        *byte = next_byte(&mut h, j as u32);
    }
    seal
}

// The steps over a message.
fn digest(key: u32, message: &[u8]) -> u32
    ensures { result ≡ fold mixed key message.now }
{
    message.iter().fold(key, |h, b| mix(h, u32::from(*b)))
}

// One step, and the byte of the seal that it gives.
fn next_byte(h: &mut u32, j: u32) -> u8
    ensures step { h.new ≡ mixed h.old j }
    ensures byte { result ≡ top h.new }
{
    *h = mix(*h, j);
    h.to_be_bytes()[0]
}

// One step of a seal.
fn mix(h: u32, b: u32) -> u32
    ensures { result ≡ mixed h b }
{
    (h ^ b).wrapping_mul(FACTOR)
}
