// Stores over good and bad memory.
use crate::shared::{count_up, part, put, same};
use status::CallError;
use std::process::Abort;
use stores::{FlatStore, Store, TapeStore, WriteRefused};

// An image that counts up from a byte.
fn image(first: usize) -> [u8; 835] {
    let mut bytes = [0; 835];
    count_up(&mut bytes, first);
    bytes
}

// Writes to a store, and gives what came of it and the writes left.
fn write<S: Store, N, L: Fn(&S) -> N>(
    store: &mut S,
    new: &[u8],
    left: L,
) -> (Result<(), WriteRefused>, N)
    requires { L.IsAlwaysCallable left }
{
    (store.write(new), left(store))
}

// Checks the image that a store means.
fn means<S: Store>(rt: &impl Abort, store: &S, image: &[u8]) {
    let mut out = [0xee; 835];
    assert_eq!(rt; store.read(&mut out), Ok(()));
    same(rt, &out, image);
}

// Writes by a new flat store.
fn write_flat(memory: &mut [u8], new: &[u8]) -> (Result<(), WriteRefused>, u32) {
    write(
        &mut FlatStore::new(memory),
        new,
        |store| store.writes_left(),
    )
}

// Checks the image that a flat memory means.
fn means_flat(rt: &impl Abort, memory: &mut [u8], image: &[u8]) {
    means(rt, &FlatStore::new(memory), image);
}

#[test]
fn flat_memory_is_laid_whole(rt: HostRuntime) {
    let mut memory = [0xee; 839];
    let laid = FlatStore::lay(&mut memory, &image(1), 0x01020304);
    assert_eq!(rt; laid, Ok(()));
    same(&rt, part(&memory, 0, 4), &[1, 2, 3, 4]);
    same(&rt, part(&memory, 4, 835), &image(1));
}

#[test]
fn flat_writes_until_none_are_left(rt: HostRuntime) {
    let a = image(1);
    let b = image(2);
    let mut memory = [0xee; 839];
    assert_eq!(rt; FlatStore::lay(&mut memory, &a, 3), Ok(()));
    means_flat(&rt, &mut memory, &a);
    assert_eq!(rt; write_flat(&mut memory, &b), (Ok(()), 2));
    means_flat(&rt, &mut memory, &b);
    assert_eq!(rt; write_flat(&mut memory, &b), (Ok(()), 1));
    assert_eq!(rt; write_flat(&mut memory, &a), (Ok(()), 0));
    assert_eq!(rt; write_flat(&mut memory, &b), (Err(WriteRefused), 0));
    same(&rt, part(&memory, 0, 4), &[0, 0, 0, 0]);
    same(&rt, part(&memory, 4, 835), &a);
}

// Checks that an image of that length is neither laid nor written.
fn refuses_flat(rt: &impl Abort, image: &[u8]) {
    let mut memory = [0; 839];
    let mut before = [0; 839];
    count_up(&mut memory, 0);
    count_up(&mut before, 0);
    let laid = FlatStore::lay(&mut memory, image, 3);
    assert_eq!(rt; laid, Err(CallError::BadMemory));
    let written = write_flat(&mut memory, image);
    assert_eq!(rt; written, (Err(WriteRefused), 0x00010203));
    same(rt, &memory, &before);
}

#[test]
fn flat_refuses_images_of_other_sizes(rt: HostRuntime) {
    refuses_flat(&rt, &[5; 834]);
    refuses_flat(&rt, &[5; 836]);
}

// Checks that a memory of a wrong size means zeros, and is never changed. The copy is given: with a size N and both
// made here, it did not prove that they can be lent.
fn no_flat(rt: &impl Abort, memory: &mut [u8], before: &[u8]) {
    let laid = FlatStore::lay(memory, &image(1), 3);
    assert_eq!(rt; laid, Err(CallError::BadMemory));
    means_flat(rt, memory, &[0; 835]);
    let written = write_flat(memory, &image(1));
    assert_eq!(rt; written, (Err(WriteRefused), 0));
    same(rt, memory, before);
}

#[test]
fn flat_memory_of_another_size_is_bad(rt: HostRuntime) {
    no_flat(&rt, &mut [1; 838], &[1; 838]);
    no_flat(&rt, &mut [1; 840], &[1; 840]);
}

#[test]
fn small_buffer_is_refused_and_long_one_keeps_its_tail(rt: HostRuntime) {
    let mut memory = [0; 839];
    count_up(&mut memory, 0);
    let mut small = [0xee; 834];
    let refused = FlatStore::new(&mut memory).read(&mut small);
    assert_eq!(rt; refused, Err(CallError::SmallBuffer));
    same(&rt, &small, &[0xee; 834]);
    let mut long = [0xee; 900];
    let read = FlatStore::new(&mut memory).read(&mut long);
    assert_eq!(rt; read, Ok(()));
    same(&rt, part(&long, 0, 835), &image(4));
    same(&rt, part(&long, 835, 65), &[0xee; 65]);
}

// Writes to a tape store.
fn write_on(store: &mut TapeStore<'_>, new: &[u8]) -> (Result<(), WriteRefused>, usize) {
    write(store, new, |store| store.writes_left())
}

// Writes by a new tape store.
fn write_tape(memory: &mut [u8], new: &[u8]) -> (Result<(), WriteRefused>, usize) {
    write_on(&mut TapeStore::new(memory), new)
}

// Checks the image that a tape means, and its writes left.
fn means_tape(rt: &impl Abort, memory: &mut [u8], image: &[u8], left: usize) {
    let store = TapeStore::new(memory);
    assert_eq!(rt; store.writes_left(), left);
    means(rt, &store, image);
}

// Lays an image in a memory of three records and a tail, that counted up from 9.
fn lay_tape(rt: &impl Abort, memory: &mut [u8], image: &[u8]) {
    count_up(memory, 9);
    assert_eq!(rt; TapeStore::lay(memory, image), Ok(()));
}

#[test]
fn tape_is_laid_with_all_else_kept(rt: HostRuntime) {
    let mut memory = [0; 2600];
    lay_tape(&rt, &mut memory, &image(1));
    let mut expected = [0; 2600];
    count_up(&mut expected, 9);
    put(&mut expected, 0, &[7]);
    put(&mut expected, 1, &image(1));
    put(&mut expected, 836, &[0]);
    put(&mut expected, 1672, &[0]);
    same(&rt, &memory, &expected);
    means_tape(&rt, &mut memory, &image(1), 2);
}

#[test]
fn tape_writes_record_after_record(rt: HostRuntime) {
    let mut memory = [0; 2600];
    lay_tape(&rt, &mut memory, &image(1));
    let mut store = TapeStore::new(&mut memory);
    assert_eq!(rt; write_on(&mut store, &image(2)), (Ok(()), 1));
    assert_eq!(rt; write_on(&mut store, &image(3)), (Ok(()), 0));
    let full = (Err(WriteRefused), 0);
    assert_eq!(rt; write_on(&mut store, &image(2)), full);
    means(&rt, &store, &image(3));
    let mut expected = [0; 2600];
    lay_tape(&rt, &mut expected, &image(1));
    put(&mut expected, 836, &[7]);
    put(&mut expected, 837, &image(2));
    put(&mut expected, 1672, &[7]);
    put(&mut expected, 1673, &image(3));
    same(&rt, &memory, &expected);
}

#[test]
fn new_tape_store_means_what_was_written(rt: HostRuntime) {
    let mut memory = [0; 2600];
    lay_tape(&rt, &mut memory, &image(1));
    assert_eq!(rt; write_tape(&mut memory, &image(2)), (Ok(()), 1));
    means_tape(&rt, &mut memory, &image(2), 1);
    assert_eq!(rt; write_tape(&mut memory, &image(3)), (Ok(()), 0));
    means_tape(&rt, &mut memory, &image(3), 0);
    let full = (Err(WriteRefused), 0);
    assert_eq!(rt; write_tape(&mut memory, &image(2)), full);
    means_tape(&rt, &mut memory, &image(3), 0);
}

// A tape of three records with these kinds, and images that count up from 10, 11 and 12. Record by record: the borrow
// checker did not cover a loop over `chunks_exact_mut` and two more iterators.
fn tape(kinds: [u8; 3]) -> [u8; 2508] {
    let [first, second, third] = kinds;
    let mut memory = [0; 2508];
    put(&mut memory, 0, &[first]);
    put(&mut memory, 1, &image(10));
    put(&mut memory, 836, &[second]);
    put(&mut memory, 837, &image(11));
    put(&mut memory, 1672, &[third]);
    put(&mut memory, 1673, &image(12));
    memory
}

// Checks that a tape of these kinds is bad: it means zeros, and is never changed.
fn bad_tape(rt: &impl Abort, kinds: [u8; 3]) {
    let mut memory = tape(kinds);
    means_tape(rt, &mut memory, &[0; 835], 0);
    let refused = (Err(WriteRefused), 0);
    assert_eq!(rt; write_tape(&mut memory, &image(1)), refused);
    same(rt, &memory, &tape(kinds));
}

#[test]
fn good_tapes_mean_their_last_written_record(rt: HostRuntime) {
    means_tape(&rt, &mut tape([7, 0, 0]), &image(10), 2);
    means_tape(&rt, &mut tape([7, 7, 0]), &image(11), 1);
    means_tape(&rt, &mut tape([7, 7, 7]), &image(12), 0);
    let mut one = [7; 836];
    means_tape(&rt, &mut one, &[7; 835], 0);
}

#[test]
fn bad_tapes_mean_zeros(rt: HostRuntime) {
    bad_tape(&rt, [0, 0, 0]);
    bad_tape(&rt, [0, 7, 0]);
    bad_tape(&rt, [7, 0, 7]);
    bad_tape(&rt, [7, 0, 1]);
    bad_tape(&rt, [7, 2, 0]);
}

#[test]
fn tape_has_at_least_one_record(rt: HostRuntime) {
    let mut short = [7; 835];
    let laid = TapeStore::lay(&mut short, &image(1));
    assert_eq!(rt; laid, Err(CallError::BadMemory));
    means_tape(&rt, &mut short, &[0; 835], 0);
    let refused = (Err(WriteRefused), 0);
    assert_eq!(rt; write_tape(&mut short, &image(1)), refused);
    same(&rt, &short, &[7; 835]);
    let mut one = [9; 836];
    assert_eq!(rt; TapeStore::lay(&mut one, &image(1)), Ok(()));
    means_tape(&rt, &mut one, &image(1), 0);
}

#[test]
fn write_cut_short_changes_nothing(rt: HostRuntime) {
    let mut memory = [0; 2600];
    lay_tape(&rt, &mut memory, &image(1));
    put(&mut memory, 837, part(&image(2), 0, 400));
    means_tape(&rt, &mut memory, &image(1), 2);
    put(&mut memory, 837, &image(2));
    means_tape(&rt, &mut memory, &image(1), 2);
    assert_eq!(rt; write_tape(&mut memory, &image(3)), (Ok(()), 1));
    same(&rt, part(&memory, 837, 835), &image(3));
}
