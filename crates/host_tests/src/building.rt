// Commands that are built, and read back.
use crate::shared::{invoice, put, same};
use host::{BuildFault, CallError, Kind, Request};
use std::alloc::Global;
use std::process::Abort;
use std::test::Fail;

const NAME: &[u8] = b"\xa0\x00\x00\x07HFJI-TaxCore";

// Builds a command in the first bytes of a buffer.
fn build_in(instruction: u8, body: &[u8], out: &mut [u8], len: usize) -> Result<usize, CallError> {
    let place = out.get_mut(..len).ok_or(CallError::SmallBuffer)?;
    host::build(instruction, body, place)
}

// Checks that a command is built at the beginning of so many bytes, and that all others stay.
fn builds_in(rt: &impl Abort, instruction: u8, body: &[u8], command: &[u8], room: usize) {
    let mut out = [0xee; 600];
    assert_eq!(rt;
        build_in(instruction, body, &mut out, room),
        Ok(command.len())
    );
    let mut expected = [0xee; 600];
    put(&mut expected, 0, command);
    same(rt, &out, &expected);
}

// Checks that a command is built, in a buffer of its own length and in a longer one; and that it is refused with 1 in
// a buffer that is one byte shorter.
fn builds(rt: &impl Abort, instruction: u8, body: &[u8], command: &[u8]) {
    let len = command.len();
    builds_in(rt, instruction, body, command, 600);
    builds_in(rt, instruction, body, command, len);
    let mut out = [0xee; 600];
    let small = Err(CallError::SmallBuffer);
    assert_eq!(rt;
        build_in(instruction, body, &mut out, len.saturating_sub(1)),
        small
    );
    same(rt, &out, &[0xee; 600]);
}

// Checks that a body is refused with 2 for this reason, in an empty buffer and in a long one, which stays.
fn refuses(rt: &impl Abort, instruction: u8, body: &[u8], fault: BuildFault) {
    let mut out = [0xee; 600];
    let bad = Err(CallError::BadField);
    assert_eq!(rt; host::build(instruction, body, &mut []), bad);
    assert_eq!(rt; host::build(instruction, body, &mut out), bad);
    assert_eq!(rt; host::compose(instruction, body, &mut out), Err(fault));
    same(rt, &out, &[0xee; 600]);
}

#[test]
fn commands_without_a_body(rt: HostRuntime) {
    builds(&rt, 0x08, &[], &[0x88, 0x08, 0x00, 0x00, 0x00]);
    builds(&rt, 0x16, &[], &[0x88, 0x16, 0x04, 0x00, 0x00]);
    builds(&rt, 0x14, &[], &[0x88, 0x14, 0x04, 0x00, 0x00]);
    builds(&rt, 0x15, &[], &[0x88, 0x15, 0x04, 0x00, 0x00, 0x00, 0x00]);
    builds(&rt, 0x12, &[], &[0x88, 0x12, 0x04, 0x00, 0x00, 0x00, 0x00]);
}

#[test]
fn select_and_pin_of_any_bytes(rt: HostRuntime) {
    let mut select = [0; 22];
    put(&mut select, 0, &[0x00, 0xa4, 0x04, 0x00, 0x10]);
    put(&mut select, 5, NAME);
    builds(&rt, 0xa4, NAME, &select);
    put(&mut select, 5, &[0xff; 16]);
    builds(&rt, 0xa4, &[0xff; 16], &select);
    let pin = [0x88, 0x11, 0x00, 0x00, 0x04, 0x31, 0x32, 0x33, 0x34];
    builds(&rt, 0x11, b"1234", &pin);
    let pin = [0x88, 0x11, 0x00, 0x00, 0x04, 0x00, 0x7f, 0x80, 0xff];
    builds(&rt, 0x11, &[0x00, 0x7f, 0x80, 0xff], &pin);
}

#[test]
fn directive_of_any_bytes(rt: HostRuntime) {
    let body = [0xa5; 512];
    let mut command = [0; 519];
    put(&mut command, 0, &[0x88, 0x40, 0x04, 0x00, 0x00, 0x02, 0x00]);
    put(&mut command, 7, &body);
    builds(&rt, 0x40, &body, &command);
}

// Checks the command of an invoice with so many categories.
fn signs(rt: &impl Abort, heap: Global, categories: u8, lc: u8) -> Result<(), Fail> {
    let body = invoice(heap, categories)?;
    let mut command = Vec::from_slice(heap, &[0x88, 0x13, 0x04, 0x00, 0x00, 0x00, lc])?;
    command.extend_from_slice(&body)?;
    command.extend_from_slice(&[0x00, 0x00])?;
    builds(rt, 0x13, &body, &command);
    Ok(())
}

#[test]
fn invoices_with_none_three_and_twelve_categories(rt: HostRuntime) -> Result<(), Fail> {
    signs(&rt, rt.alloc(), 0, 0x3a)?;
    signs(&rt, rt.alloc(), 3, 0x52)?;
    signs(&rt, rt.alloc(), 12, 0x9a)
}

#[test]
fn bodies_of_a_wrong_length(rt: HostRuntime) -> Result<(), Fail> {
    let wrong = BuildFault::WrongBodyLength;
    refuses(&rt, 0xa4, &[0; 15], wrong);
    refuses(&rt, 0xa4, &[0; 17], wrong);
    refuses(&rt, 0xa4, &[], wrong);
    refuses(&rt, 0x08, &[0], wrong);
    refuses(&rt, 0x12, &[0; 2], wrong);
    refuses(&rt, 0x11, b"123", wrong);
    refuses(&rt, 0x11, b"12345", wrong);
    refuses(&rt, 0x40, &[0; 511], wrong);
    refuses(&rt, 0x40, &[0; 513], wrong);
    let mut body = invoice(rt.alloc(), 13)?;
    refuses(&rt, 0x13, &body, wrong);
    body.truncate(65);
    refuses(&rt, 0x13, &body, wrong);
    body.truncate(57);
    refuses(&rt, 0x13, &body, wrong);
    Ok(())
}

// Checks that an invoice with one category and this byte changed is malformed.
fn malformed(rt: &impl Abort, heap: Global, at: usize, byte: u8) -> Result<(), Fail> {
    let mut body = invoice(heap, 1)?;
    put(&mut body, at, &[byte]);
    refuses(rt, 0x13, &body, BuildFault::MalformedInvoice);
    Ok(())
}

#[test]
fn invoices_that_the_card_would_refuse(rt: HostRuntime) -> Result<(), Fail> {
    for (at, byte) in [
        (57, 0),
        (57, 2),
        (58, 0),
        (58, 13),
        (48, 5),
        (49, 2),
        (8, 0x7f),
        (20, 0),
        (28, 0x1f),
    ] {
        malformed(&rt, rt.alloc(), at, byte)?;
    }
    refuses(&rt, 0x13, &[0; 58], BuildFault::MalformedInvoice);
    Ok(())
}

#[test]
fn instructions_that_are_unknown(rt: HostRuntime) {
    let unknown = BuildFault::UnknownInstruction;
    refuses(&rt, 0x99, &[], unknown);
    refuses(&rt, 0x00, &[], unknown);
    refuses(&rt, 0xff, &[0; 16], unknown);
    refuses(&rt, 0x88, &[0; 4], unknown);
}

// An instruction and a body; and the kind, the place of the body and the Le of the command that is built of them.
type Case<'a> = (u8, &'a [u8], Kind, usize, Option<u32>);

// Checks how a command that is built is read back, and that its Le is enough for the data of its kind.
fn reads_back(rt: &impl Abort, case: Case<'_>) -> Result<(), Fail> {
    let (instruction, body, kind, place, le) = case;
    let mut out = [0xee; 600];
    let len = host::build(instruction, body, &mut out)?;
    let command = host::read(&out[..len])?;
    assert_eq!(rt; command.kind(), kind);
    let Request {
        header,
        body: read,
        place: at,
        le: expected,
    } = command.request();
    assert_eq!(rt;
        (header.instruction, at, expected),
        (instruction, place, le)
    );
    same(rt, read, body);
    let n = host::data_length(kind).ok_or("no kind of the card")?;
    assert!(rt; le.map_or(n == 0, |le| n <= le as usize));
    Ok(())
}

#[test]
fn every_command_is_read_back(rt: HostRuntime) -> Result<(), Fail> {
    let invoice = invoice(rt.alloc(), 12)?;
    let cases: [Case<'_>; 9] = [
        (0xa4, NAME, Kind::Select, 5, Some(256)),
        (0x08, &[], Kind::Version, 4, Some(256)),
        (0x16, &[], Kind::Tries, 4, Some(256)),
        (0x14, &[], Kind::Amounts, 4, Some(256)),
        (0x15, &[], Kind::Last, 4, Some(65536)),
        (0x11, b"1234", Kind::Pin, 5, None),
        (0x13, &invoice, Kind::Sign, 7, Some(65536)),
        (0x12, &[], Kind::Export, 4, Some(65536)),
        (0x40, &[0x5a; 512], Kind::Directive, 7, None),
    ];
    for case in cases {
        reads_back(&rt, case)?;
    }
    Ok(())
}
