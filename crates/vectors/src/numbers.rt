// Numbers of several bytes, status words and call numbers.
use octets::{DoesNotFit, copy_at, read_be, write_be};
use status::{CallError, StatusWord, UnknownWord};

#[test]
fn read_at_each_width(rt: HostRuntime) {
    assert_eq!(rt; read_be(&[]), Some(0));
    assert_eq!(rt; read_be(&[0x90, 0x00]), Some(0x9000));
    assert_eq!(rt; read_be(&[0x00, 0x00, 0x01, 0x02]), Some(258));
    assert_eq!(rt;
        read_be(&[0x00, 0x00, 0x72, 0x4a, 0xa1, 0x83, 0x28]),
        Some(490878370600)
    );
    assert_eq!(rt; read_be(&[0xff; 8]), Some(u64::MAX));
    assert_eq!(rt; read_be(&[0x00; 9]), None);
}

#[test]
fn write_at_each_width(rt: HostRuntime) {
    let mut two = [0xee; 2];
    assert_eq!(rt; write_be(&mut two, 0x6a80), Ok(()));
    assert_eq!(rt; two, [0x6a, 0x80]);
    let mut seven = [0xee; 7];
    assert_eq!(rt; write_be(&mut seven, 1000000000000000), Ok(()));
    assert_eq!(rt; seven, [0x03, 0x8d, 0x7e, 0xa4, 0xc6, 0x80, 0x00]);
}

#[test]
fn too_large_a_number_is_refused(rt: HostRuntime) {
    let mut seven = [0xee; 7];
    assert_eq!(rt; write_be(&mut seven, 1 << 56), Err(DoesNotFit));
    assert_eq!(rt; seven, [0xee; 7]);
    assert_eq!(rt; write_be(&mut seven, (1 << 56) - 1), Ok(()));
    assert_eq!(rt; seven, [0xff; 7]);
}

#[test]
fn copies_keep_what_is_around(rt: HostRuntime) {
    let mut buffer = [0xee; 5];
    assert_eq!(rt; copy_at(&mut buffer, 3, &[1, 2]), Ok(()));
    assert_eq!(rt; buffer, [0xee, 0xee, 0xee, 1, 2]);
    assert_eq!(rt; copy_at(&mut buffer, 4, &[3, 4]), Err(DoesNotFit));
    assert_eq!(rt; copy_at(&mut buffer, usize::MAX, &[3, 4]), Err(DoesNotFit));
    assert_eq!(rt; buffer, [0xee, 0xee, 0xee, 1, 2]);
}

#[test]
fn words_and_numbers(rt: HostRuntime) {
    assert_eq!(rt; u16::from(StatusWord::Success), 0x9000);
    assert_eq!(rt; u16::from(StatusWord::UnsoundImage), 0x6f00);
    assert_eq!(rt; u8::from(CallError::SmallBuffer), 1);
    assert_eq!(rt; u8::from(CallError::BadMemory), 4);
}

#[test]
fn words_of_values(rt: HostRuntime) {
    assert_eq!(rt; StatusWord::try_from(0x9000), Ok(StatusWord::Success));
    assert_eq!(rt; StatusWord::try_from(0x6a80), Ok(StatusWord::BadBody));
    let unknown = UnknownWord { value: 0x9001 };
    assert_eq!(rt; StatusWord::try_from(0x9001), Err(unknown));
}
