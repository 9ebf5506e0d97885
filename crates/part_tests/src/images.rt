// Images: personalisation, soundness, and the fields read and written.
use crate::shared::{count_up, put, same};
use image::{Flaw, Image, personalise};
use status::CallError;
use std::process::Abort;
use std::test::Fail;

// The first image of a card with PIN 1234, limit 1000000 and key version 7.
fn first() -> [u8; 835] {
    let mut bytes = [0; 835];
    put(&mut bytes, 0, &[0x01]);
    put(&mut bytes, 25, &[0x02]);
    put(&mut bytes, 37, &[0x0f, 0x42, 0x40]);
    put(&mut bytes, 52, &[0x03, 0x31, 0x32, 0x33, 0x34, 0x05, 0x04]);
    put(&mut bytes, 251, &[0x05]);
    put(&mut bytes, 830, &[0x06, 0x00, 0x00, 0x00, 0x07]);
    bytes
}

// The image after two sales and a refund, with a mark and a last answer.
fn used() -> [u8; 835] {
    let mut bytes = first();
    put(&mut bytes, 1, &[0, 0, 0, 2, 0, 0, 0, 1]);
    put(&mut bytes, 15, &[0x05, 0xdc, 0, 0, 0, 0, 0, 0, 0x01, 0x2c]);
    put(&mut bytes, 31, &[0x04, 0xb0]);
    put(&mut bytes, 40, &[1, 0, 0, 0, 2, 0, 0, 0, 0, 0, 0x03, 0xe8]);
    put(&mut bytes, 65, &[0x05, 0xdc]);
    put(&mut bytes, 249, &[0x01, 0x2c]);
    put(&mut bytes, 252, &[1]);
    let mut answer = [0; 577];
    count_up(&mut answer, 5);
    put(&mut bytes, 253, &answer);
    bytes
}

#[test]
fn first_image_byte_by_byte(rt: HostRuntime) {
    let mut out = [0xee; 835];
    assert_eq!(rt; personalise(b"1234", 1000000, 7, &mut out), Ok(()));
    same(&rt, &out, &first());
}

#[test]
fn largest_limit_and_key_version(rt: HostRuntime) {
    let mut out = [0xee; 835];
    let limit = 72057594037927935;
    assert_eq!(rt; personalise(b"0099", limit, u32::MAX, &mut out), Ok(()));
    let mut expected = first();
    put(&mut expected, 33, &[0xff; 7]);
    put(&mut expected, 53, &[0x30, 0x30, 0x39, 0x39]);
    put(&mut expected, 831, &[0xff; 4]);
    same(&rt, &out, &expected);
    assert_eq!(rt; Image::read(&out).err(), None);
}

// Checks that personalisation refuses, and leaves the buffer. The copy is given: with a size N and both buffers made
// here, it did not prove that they can be lent.
fn refuses(
    rt: &impl Abort,
    pin: &[u8],
    limit: u64,
    out: &mut [u8],
    before: &[u8],
    error: CallError,
) {
    assert_eq!(rt; personalise(pin, limit, 7, out), Err(error));
    same(rt, out, before);
}

#[test]
fn buffer_of_another_size_is_refused_first(rt: HostRuntime) {
    let small = CallError::SmallBuffer;
    refuses(&rt, b"1234", 0, &mut [0xee; 834], &[0xee; 834], small);
    refuses(&rt, b"1234", 0, &mut [0xee; 836], &[0xee; 836], small);
    refuses(&rt, b"12a4", 1 << 56, &mut [0xee; 836], &[0xee; 836], small);
}

// Checks that a PIN and a limit are refused.
fn bad_field(rt: &impl Abort, pin: &[u8], limit: u64) {
    refuses(
        rt,
        pin,
        limit,
        &mut [0xee; 835],
        &[0xee; 835],
        CallError::BadField,
    );
}

#[test]
fn bad_pins_and_limits_are_refused(rt: HostRuntime) {
    bad_field(&rt, b"123", 0);
    bad_field(&rt, b"12345", 0);
    bad_field(&rt, b"/234", 0);
    bad_field(&rt, b"123:", 0);
    bad_field(&rt, b"", 0);
    bad_field(&rt, b"1234", 72057594037927936);
}

#[test]
fn fields_of_a_first_image(rt: HostRuntime) -> Result<(), Fail> {
    let image = Image::read(&first())?;
    assert_eq!(rt; (image.total(), image.unaudited), (0, 0));
    assert_eq!(rt; (image.limit, image.key_version), (1000000, 7));
    assert_eq!(rt; (image.pin, image.tries), ([0x31, 0x32, 0x33, 0x34], 5));
    assert!(rt; image.mark.is_none());
    assert!(rt; image.last.is_none());
    Ok(())
}

#[test]
fn counts_of_a_used_image(rt: HostRuntime) -> Result<(), Fail> {
    let image = Image::read(&used())?;
    let counters = (image.counters.sale.value(), image.counters.refund.value());
    assert_eq!(rt; (counters, image.total()), ((2, 1), 3));
    let sums = (image.sums.sale.value(), image.sums.refund.value());
    assert_eq!(rt; (sums, image.unaudited), ((1500, 300), 1200));
    assert_eq!(rt;
        image.rows.sale.values(),
        [1500, 0, 0, 0, 0, 0, 0, 0, 0, 0, 0, 0]
    );
    assert_eq!(rt;
        image.rows.refund.values(),
        [0, 0, 0, 0, 0, 0, 0, 0, 0, 0, 0, 300]
    );
    Ok(())
}

#[test]
fn mark_and_last_answer_of_a_used_image(rt: HostRuntime) -> Result<(), Fail> {
    let image = Image::read(&used())?;
    let mark = image.mark.ok_or("no mark")?;
    assert_eq!(rt; (mark.counter, mark.amount), (2, 1000));
    let answer = image.last.ok_or("no answer")?;
    let mut expected = [0; 577];
    count_up(&mut expected, 5);
    same(&rt, &answer, &expected);
    Ok(())
}

// Checks that what is read is written as the same bytes.
fn rewritten(rt: &impl Abort, bytes: &[u8]) -> Result<(), Fail> {
    let mut out = [0xee; 835];
    let image = Image::read(bytes)?;
    assert_eq!(rt; image.write(&mut out), Ok(()));
    same(rt, &out, bytes);
    Ok(())
}

#[test]
fn sound_images_are_written_back(rt: HostRuntime) -> Result<(), Fail> {
    rewritten(&rt, &first())?;
    rewritten(&rt, &used())
}

#[test]
fn writing_refuses(rt: HostRuntime) -> Result<(), Fail> {
    let mut image = Image::read(&used())?;
    let mut small = [0xee; 834];
    assert_eq!(rt; image.write(&mut small), Err(CallError::SmallBuffer));
    same(&rt, &small, &[0xee; 834]);
    image.limit = 1 << 56;
    let mut out = [0xee; 835];
    assert_eq!(rt; image.write(&mut out), Err(CallError::BadField));
    same(&rt, &out, &[0xee; 835]);
    Ok(())
}

// The flaw of an image with other bytes in it.
fn flaw_with(image: [u8; 835], at: usize, new: &[u8]) -> Option<Flaw> {
    let mut bytes = image;
    put(&mut bytes, at, new);
    Image::read(&bytes).err()
}

#[test]
fn wrong_sizes(rt: HostRuntime) {
    assert_eq!(rt; Image::read(&[0; 834]).err(), Some(Flaw::Size));
    assert_eq!(rt; Image::read(&[0; 836]).err(), Some(Flaw::Size));
    assert_eq!(rt; Image::read(&[0; 835]).err(), Some(Flaw::Kinds));
}

#[test]
fn wrong_kind_bytes(rt: HostRuntime) {
    let kinds = Some(Flaw::Kinds);
    assert_eq!(rt; flaw_with(used(), 0, &[2]), kinds);
    assert_eq!(rt; flaw_with(used(), 25, &[3]), kinds);
    assert_eq!(rt; flaw_with(used(), 52, &[4]), kinds);
    assert_eq!(rt; flaw_with(used(), 58, &[5]), kinds);
    assert_eq!(rt; flaw_with(used(), 251, &[6]), kinds);
    assert_eq!(rt; flaw_with(used(), 830, &[7]), kinds);
}

#[test]
fn bad_flags(rt: HostRuntime) {
    assert_eq!(rt; flaw_with(first(), 40, &[2]), Some(Flaw::MarkFlag));
    assert_eq!(rt; flaw_with(first(), 41, &[1]), Some(Flaw::MarkFlag));
    assert_eq!(rt; flaw_with(first(), 51, &[1]), Some(Flaw::MarkFlag));
    assert_eq!(rt; flaw_with(used(), 252, &[2]), Some(Flaw::LastFlag));
    assert_eq!(rt; flaw_with(first(), 253, &[1]), Some(Flaw::LastFlag));
    assert_eq!(rt; flaw_with(first(), 829, &[1]), Some(Flaw::LastFlag));
}

#[test]
fn counters_and_amounts_at_their_bounds(rt: HostRuntime) {
    assert_eq!(rt; flaw_with(used(), 1, &[0xff, 0xff, 0xff, 0xfe]), None);
    assert_eq!(rt; flaw_with(used(), 1, &[0xff; 4]), Some(Flaw::Total));
    assert_eq!(rt; flaw_with(used(), 37, &[0x00, 0x04, 0xb0]), None);
    assert_eq!(rt;
        flaw_with(used(), 37, &[0x00, 0x04, 0xaf]),
        Some(Flaw::OverLimit)
    );
    assert_eq!(rt; flaw_with(used(), 44, &[3]), None);
    assert_eq!(rt; flaw_with(used(), 44, &[4]), Some(Flaw::MarkCounter));
    assert_eq!(rt; flaw_with(used(), 50, &[0x04, 0xb0]), None);
    assert_eq!(rt;
        flaw_with(used(), 50, &[0x04, 0xb1]),
        Some(Flaw::MarkAmount)
    );
}

#[test]
fn bad_pins_tries_and_last_answers(rt: HostRuntime) {
    assert_eq!(rt; flaw_with(first(), 53, &[0x2f]), Some(Flaw::Pin));
    assert_eq!(rt; flaw_with(first(), 56, &[0x3a]), Some(Flaw::Pin));
    assert_eq!(rt; flaw_with(first(), 57, &[6]), Some(Flaw::Tries));
    assert_eq!(rt; flaw_with(first(), 252, &[1]), Some(Flaw::LastAnswer));
    assert_eq!(rt; flaw_with(used(), 252, &[0; 578]), Some(Flaw::LastAnswer));
}

#[test]
fn what_soundness_does_not_ask(rt: HostRuntime) {
    assert_eq!(rt; flaw_with(first(), 31, &[0x01, 0xf4]), None);
    assert_eq!(rt; flaw_with(first(), 40, &[1]), None);
    assert_eq!(rt; flaw_with(first(), 37, &[0; 3]), None);
    assert_eq!(rt; flaw_with(first(), 831, &[0xff; 4]), None);
    assert_eq!(rt; flaw_with(first(), 57, &[0]), None);
}
