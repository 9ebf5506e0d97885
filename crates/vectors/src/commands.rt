// Commands at their greatest lengths, and one byte short of them or past them: a test for each, so that its name says what
// fails.
use apdu::{Fault, Kind};
use std::alloc::{AllocError, Global};
use std::test::Fail;

// A signing command with these length bytes, a body of `len` bytes and this tail.
fn sign(heap: Global, lc: &[u8], len: usize, tail: &[u8]) -> Result<Vec<u8>, AllocError> {
    let mut bytes = Vec::from_slice(heap, &[0x88, 0x13, 0x04, 0x00])?;
    bytes.extend_from_slice(lc)?;
    bytes.extend((0..251u8).cycle().take(len))?;
    bytes.extend_from_slice(tail)?;
    Ok(bytes)
}

// The place and length of the body of a command, and its Le.
fn shape(bytes: &[u8]) -> Result<(usize, usize, Option<u32>), Fault> {
    let request = apdu::parse(bytes)?.request();
    Ok((request.place, request.body.len(), request.le))
}

#[test]
fn longest_extended_body(rt: HostRuntime) -> Result<(), Fail> {
    let bytes = sign(rt.alloc(), &[0x00, 0xff, 0xff], 65535, &[])?;
    assert_eq!(rt; bytes.len(), 65542);
    assert_eq!(rt; shape(&bytes), Ok((7, 65535, None)));
    Ok(())
}

#[test]
fn longest_command(rt: HostRuntime) -> Result<(), Fail> {
    let bytes = sign(rt.alloc(), &[0x00, 0xff, 0xff], 65535, &[0x00, 0x00])?;
    assert_eq!(rt; bytes.len(), 65544);
    assert_eq!(rt; shape(&bytes), Ok((7, 65535, Some(65536))));
    Ok(())
}

#[test]
fn longest_body_is_the_part_behind_lc(rt: HostRuntime) -> Result<(), Fail> {
    let bytes = sign(rt.alloc(), &[0x00, 0xff, 0xff], 65535, &[0x12, 0x34])?;
    let command = apdu::read(&bytes)?;
    assert_eq!(rt; command.kind(), Kind::Sign);
    let body = command.request().body;
    assert!(rt; body.len() == 65535);
    assert_eq!(rt;
        (body[0], body[250], body[251], body[65534]),
        (0, 250, 0, 23)
    );
    assert_eq!(rt; command.request().le, Some(0x1234));
    Ok(())
}

#[test]
fn one_byte_short_of_the_longest_body(rt: HostRuntime) -> Result<(), Fail> {
    let bytes = sign(rt.alloc(), &[0x00, 0xff, 0xff], 65534, &[])?;
    assert_eq!(rt; shape(&bytes), Err(Fault::CutBody));
    Ok(())
}

#[test]
fn half_an_le_behind_the_longest_body(rt: HostRuntime) -> Result<(), Fail> {
    let bytes = sign(rt.alloc(), &[0x00, 0xff, 0xff], 65535, &[0x00])?;
    assert_eq!(rt; shape(&bytes), Err(Fault::HalfLe));
    Ok(())
}

#[test]
fn three_bytes_behind_the_longest_body(rt: HostRuntime) -> Result<(), Fail> {
    let bytes = sign(rt.alloc(), &[0x00, 0xff, 0xff], 65535, &[0x00, 0x00, 0x00])?;
    assert_eq!(rt; shape(&bytes), Err(Fault::TrailingBytes));
    Ok(())
}

#[test]
fn longest_short_body(rt: HostRuntime) -> Result<(), Fail> {
    assert_eq!(rt;
        shape(&sign(rt.alloc(), &[0xff], 254, &[])?),
        Err(Fault::CutBody)
    );
    assert_eq!(rt;
        shape(&sign(rt.alloc(), &[0xff], 255, &[])?),
        Ok((5, 255, None))
    );
    assert_eq!(rt;
        shape(&sign(rt.alloc(), &[0xff], 255, &[0x00])?),
        Ok((5, 255, Some(256)))
    );
    assert_eq!(rt;
        shape(&sign(rt.alloc(), &[0xff], 255, &[0x00, 0x00])?),
        Err(Fault::TrailingBytes)
    );
    Ok(())
}
