// Hexadecimal text, and what is printed of words, numbers and faults.
use apdu::{Fault, Kind};
use hex_text::HexError;
use status::{CallError, StatusWord};
use std::test::Fail;

#[test]
fn bytes_from_text(rt: HostRuntime) -> Result<(), Fail> {
    let bytes = hex_text::decode(rt.alloc(), b" 00a4 04\t00 FF ")?;
    assert_eq!(rt; bytes.as_slice(), [0x00, 0xa4, 0x04, 0x00, 0xff].as_slice());
    assert_eq!(rt; hex_text::decode(rt.alloc(), b"-")?.len(), 0);
    assert_eq!(rt; hex_text::decode(rt.alloc(), b"")?.len(), 0);
    Ok(())
}

#[test]
fn faults_of_a_text(rt: HostRuntime) {
    assert_eq!(rt;
        hex_text::decode(rt.alloc(), b"881").err(),
        Some(HexError::HalfByte)
    );
    assert_eq!(rt;
        hex_text::decode(rt.alloc(), b"8 8").err(),
        Some(HexError::NoDigit(b' '))
    );
    assert_eq!(rt;
        hex_text::decode(rt.alloc(), b"8g").err(),
        Some(HexError::NoDigit(b'g'))
    );
    assert_eq!(rt;
        hex_text::decode(rt.alloc(), b"--").err(),
        Some(HexError::NoDigit(b'-'))
    );
}

#[test]
fn names_in_words(rt: HostRuntime) -> Result<(), Fail> {
    let heap = rt.alloc();
    let word = StatusWord::WrongPin;
    let refusal = CallError::BadMemory;
    let fault = Fault::HalfLe;
    let kind = Kind::Directive;
    let error = HexError::NoDigit(103);
    let text = format!(in heap; "{word}, {refusal}, {fault}, {kind}, {error}")?;
    assert_eq!(rt;
        text.as_str(),
        "wrong PIN, bad store memory, half of an extended Le, directive, the character 103 is no digit"
    );
    Ok(())
}
