// Sealers: the bench rules at known keys, and decks of the recorded sealer.
use crate::shared::{part, put, same};
use sealers::{BenchSealer, RecordedSealer, Sealer};
use status::CallError;
use std::process::Abort;
use std::test::Fail;

// The bytes 00 01 02 and so on to FF.
fn ladder() -> [u8; 256] {
    let mut bytes = [0; 256];
    for (byte, number) in bytes.iter_mut().zip(0..=255u8) {
        *byte = number;
    }
    bytes
}

// Checks the first bytes and the last ones of the answer that a call writes.
fn ends<C: Fn(&mut [u8]) -> Result<bool, CallError>>(
    rt: &impl Abort,
    call: C,
    first: &[u8],
    last: &[u8],
)
    requires { C.IsAlwaysCallable call }
{
    let mut out = [0xee; 256];
    assert_eq!(rt; call(&mut out), Ok(true));
    same(rt, &out[..8], first);
    same(rt, &out[252..], last);
}

// Checks the bench seal of a message.
fn seals(rt: &impl Abort, key: u32, message: &[u8], first: &[u8], last: &[u8]) {
    ends(
        rt,
        |out| BenchSealer::new(key).seal(message, out),
        first,
        last,
    );
}

// Checks the bench cover of a block.
fn covers(rt: &impl Abort, key: u32, block: &[u8], first: &[u8], last: &[u8]) {
    ends(
        rt,
        |out| BenchSealer::new(key).cover(block, out),
        first,
        last,
    );
}

#[test]
fn bench_seals_with_small_keys(rt: HostRuntime) {
    seals(
        &rt,
        0,
        &[],
        &[0x00, 0x01, 0x24, 0xef, 0x64, 0x7e, 0x0a, 0x30],
        &[0x24, 0xa2, 0xf5, 0x59],
    );
    seals(
        &rt,
        0,
        b"abc",
        &[0x8e, 0x05, 0x28, 0x01, 0x93, 0x0f, 0x68, 0x11],
        &[0x0a, 0x73, 0xa0, 0xa2],
    );
    seals(
        &rt,
        1,
        &[],
        &[0x01, 0x25, 0x16, 0xc8, 0xe6, 0x3d, 0x13, 0xcb],
        &[0xe5, 0x0a, 0x22, 0x84],
    );
    seals(
        &rt,
        1,
        &[0],
        &[0x26, 0x3d, 0x2c, 0x52, 0xff, 0xba, 0x12, 0xc9],
        &[0x82, 0x47, 0xf7, 0xdd],
    );
    seals(
        &rt,
        0x2a,
        &[],
        &[0x2a, 0x3d, 0x79, 0xb3, 0x8f, 0x29, 0x27, 0xf9],
        &[0xcd, 0x74, 0x9d, 0xaa],
    );
}

#[test]
fn bench_seals_with_large_keys_and_messages(rt: HostRuntime) {
    seals(
        &rt,
        0x2a,
        &[0; 256],
        &[0x3b, 0xde, 0x69, 0xe5, 0x1a, 0x3a, 0x12, 0x87],
        &[0x91, 0xd9, 0x4b, 0xda],
    );
    seals(
        &rt,
        0x01020304,
        &[],
        &[0x9a, 0xfe, 0x85, 0x44, 0xbf, 0x32, 0xc1, 0xf7],
        &[0x3a, 0x01, 0x5d, 0x2a],
    );
    seals(
        &rt,
        0x01020304,
        b"abc",
        &[0xef, 0x98, 0xa5, 0xb2, 0xc4, 0xf5, 0x9b, 0x04],
        &[0xee, 0x76, 0xe0, 0x2c],
    );
    seals(
        &rt,
        0xffffffff,
        &[],
        &[0xfe, 0xd8, 0x9d, 0xbb, 0xc4, 0xb1, 0x50, 0x0d],
        &[0x5b, 0xf1, 0x67, 0xc8],
    );
}

#[test]
fn bench_covers(rt: HostRuntime) {
    let block = ladder();
    covers(
        &rt,
        0,
        &block,
        &[0x00, 0x01, 0x02, 0x03, 0x04, 0x05, 0x06, 0x07],
        &[0xfc, 0xfd, 0xfe, 0xff],
    );
    covers(
        &rt,
        0x2a,
        &block,
        &[0x00, 0x01, 0x02, 0x29, 0x04, 0x05, 0x06, 0x2d],
        &[0xfc, 0xfd, 0xfe, 0xd5],
    );
    covers(
        &rt,
        0x01020304,
        &[0; 256],
        &[0x01, 0x02, 0x03, 0x04, 0x01, 0x02, 0x03, 0x04],
        &[0x01, 0x02, 0x03, 0x04],
    );
    covers(
        &rt,
        0x01020304,
        &block,
        &[0x01, 0x03, 0x01, 0x07, 0x05, 0x07, 0x05, 0x03],
        &[0xfd, 0xff, 0xfd, 0xfb],
    );
}

// Checks that a block has no bench cover, which leaves the buffer.
fn no_cover(rt: &impl Abort, block: &[u8]) {
    let mut out = [0xee; 300];
    assert_eq!(rt; BenchSealer::new(7).cover(block, &mut out), Ok(false));
    same(rt, &out, &[0xee; 300]);
}

#[test]
fn other_blocks_have_no_bench_cover(rt: HostRuntime) {
    no_cover(&rt, &[1; 255]);
    no_cover(&rt, &[1; 257]);
}

// Checks that a sealer refuses a small buffer for any block and message.
fn refuses_small<S: Sealer>(rt: &impl Abort, sealer: &mut S) {
    let small = Err(CallError::SmallBuffer);
    let mut out = [0xee; 255];
    assert_eq!(rt; sealer.cover(&[1; 255], &mut out), small);
    assert_eq!(rt; sealer.cover(&[1; 256], &mut out), small);
    assert_eq!(rt; sealer.seal(&[1; 256], &mut out), small);
    same(rt, &out, &[0xee; 255]);
}

#[test]
fn small_buffer_comes_first(rt: HostRuntime) {
    refuses_small(&rt, &mut BenchSealer::new(7));
    refuses_small(&rt, &mut RecordedSealer::new(&[]));
}

#[test]
fn long_buffer_keeps_its_tail(rt: HostRuntime) {
    let mut bench = BenchSealer::new(0x01020304);
    let mut out = [0xee; 300];
    assert_eq!(rt; bench.cover(&[0; 256], &mut out), Ok(true));
    same(&rt, &out[254..258], &[0x03, 0x04, 0xee, 0xee]);
    assert_eq!(rt; bench.seal(&[], &mut out), Ok(true));
    same(&rt, &out[254..258], &[0x5d, 0x2a, 0xee, 0xee]);
    same(&rt, &out[256..], &[0xee; 44]);
}

// Puts an entry in a deck, with an answer of one byte all over. By its place: of a deck of three entries, each put in a
// part of the deck, the bounds of the parts did not prove.
fn put_entry(deck: &mut [u8], at: usize, kind: u8, message: &[u8], answer: u8) {
    put(deck, at, &[kind]);
    put(deck, at.saturating_add(1), message);
    let behind = at.saturating_add(1).saturating_add(message.len());
    put(deck, behind, &[answer; 256]);
}

// What a deck answers for the cover of a block: the byte that the answer is all over.
fn cover_in(rt: &impl Abort, deck: &[u8], block: &[u8]) -> Result<Option<u8>, Fail> {
    told(rt, |out| RecordedSealer::new(deck).cover(block, out))
}

// What a deck answers for the seal of a message.
fn seal_in(rt: &impl Abort, deck: &[u8], message: &[u8]) -> Result<Option<u8>, Fail> {
    told(rt, |out| RecordedSealer::new(deck).seal(message, out))
}

// The byte that the answer of a call is all over; none leaves the buffer as it was.
fn told<C: Fn(&mut [u8]) -> Result<bool, CallError>>(
    rt: &impl Abort,
    call: C,
) -> Result<Option<u8>, Fail>
    requires { C.IsAlwaysCallable call }
{
    let mut out = [0xee; 256];
    let byte = call(&mut out)?.then_some(out[0]);
    same(rt, &out, &[byte.unwrap_or(0xee); 256]);
    Ok(byte)
}

#[test]
fn empty_deck_answers_none(rt: HostRuntime) -> Result<(), Fail> {
    assert_eq!(rt; cover_in(&rt, &[], &[1; 256])?, None);
    assert_eq!(rt; seal_in(&rt, &[], &[1; 256])?, None);
    assert_eq!(rt; seal_in(&rt, &[5], &[])?, None);
    Ok(())
}

#[test]
fn first_entry_of_the_rule_answers(rt: HostRuntime) -> Result<(), Fail> {
    let block = ladder();
    let mut deck = [0; 1026];
    put_entry(&mut deck, 0, 1, &block, 0xaa);
    put_entry(&mut deck, 513, 1, &block, 0xbb);
    assert_eq!(rt; cover_in(&rt, part(&deck, 0, 513), &block)?, Some(0xaa));
    assert_eq!(rt; seal_in(&rt, part(&deck, 0, 513), &block)?, None);
    assert_eq!(rt; cover_in(&rt, &deck, &block)?, Some(0xaa));
    assert_eq!(rt; cover_in(&rt, part(&deck, 513, 513), &block)?, Some(0xbb));
    assert_eq!(rt; cover_in(&rt, &deck, &[1; 256])?, None);
    Ok(())
}

#[test]
fn reading_ends_at_another_kind(rt: HostRuntime) -> Result<(), Fail> {
    let block = ladder();
    let mut deck = [0; 1027];
    put_entry(&mut deck, 0, 4, &block, 0xaa);
    put(&mut deck, 513, &[5]);
    put_entry(&mut deck, 514, 1, &block, 0xbb);
    assert_eq!(rt; cover_in(&rt, &deck, &block)?, None);
    assert_eq!(rt; seal_in(&rt, &deck, &block)?, Some(0xaa));
    Ok(())
}

#[test]
fn entry_cut_short_does_not_answer(rt: HostRuntime) -> Result<(), Fail> {
    let block = ladder();
    let mut deck = [0; 1026];
    put_entry(&mut deck, 0, 1, &block, 0xaa);
    put_entry(&mut deck, 513, 1, &[1; 256], 0xbb);
    assert_eq!(rt; cover_in(&rt, part(&deck, 0, 512), &block)?, None);
    assert_eq!(rt; cover_in(&rt, part(&deck, 0, 1025), &block)?, Some(0xaa));
    assert_eq!(rt; cover_in(&rt, part(&deck, 0, 1025), &[1; 256])?, None);
    assert_eq!(rt; cover_in(&rt, &deck, &[1; 256])?, Some(0xbb));
    Ok(())
}

#[test]
fn all_kinds_of_seal_answer(rt: HostRuntime) -> Result<(), Fail> {
    let mut deck = [0; 1657];
    put_entry(&mut deck, 0, 2, &[1; 321], 0xaa);
    put_entry(&mut deck, 578, 3, &[1; 309], 0xbb);
    put_entry(&mut deck, 1144, 4, &[1; 256], 0xcc);
    assert_eq!(rt; seal_in(&rt, &deck, &[1; 321])?, Some(0xaa));
    assert_eq!(rt; seal_in(&rt, &deck, &[1; 309])?, Some(0xbb));
    assert_eq!(rt; seal_in(&rt, &deck, &[1; 256])?, Some(0xcc));
    assert_eq!(rt; seal_in(&rt, &deck, &[1; 310])?, None);
    Ok(())
}
