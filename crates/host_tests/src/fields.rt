// The fields of answers.
use crate::shared::{put, same};
use host::{AmountsAnswer, SignedAnswer, Transaction};
use std::test::Fail;

#[test]
fn amounts_of_an_answer(rt: HostRuntime) {
    let data = [
        0x00, 0x00, 0x72, 0x4a, 0xa1, 0x83, 0x28, 0x03, 0x8d, 0x7e, 0xa4, 0xc6, 0x80, 0x00,
    ];
    let expected = AmountsAnswer {
        unaudited: 490878370600,
        limit: 1000000000000000,
    };
    assert_eq!(rt; AmountsAnswer::read(&data), Some(expected));
    assert_eq!(rt; AmountsAnswer::read(&data[..13]), None);
    assert_eq!(rt; AmountsAnswer::read(&[0; 15]), None);
    let largest = AmountsAnswer {
        unaudited: 72057594037927935,
        limit: 72057594037927935,
    };
    assert_eq!(rt; AmountsAnswer::read(&[0xff; 14]), Some(largest));
}

// A signing answer with each field of its own bytes.
fn signed() -> [u8; 577] {
    let mut data = [0; 577];
    put(&mut data, 0, &[1; 8]);
    put(&mut data, 8, &[2; 20]);
    put(&mut data, 28, &[3; 20]);
    put(&mut data, 48, &[4, 1]);
    put(&mut data, 50, &[0, 0, 0, 0, 0, 0x01, 0x2c]);
    put(&mut data, 57, &[0, 0, 0, 3, 0x80, 0, 0, 6]);
    put(&mut data, 65, &[5; 256]);
    put(&mut data, 321, &[6; 256]);
    data
}

#[test]
fn fields_of_a_signing_answer(rt: HostRuntime) -> Result<(), Fail> {
    let data = signed();
    let answer = SignedAnswer::read(&data).ok_or("no fields")?;
    same(&rt, answer.date, &[1; 8]);
    same(&rt, answer.taxpayer, &[2; 20]);
    same(&rt, answer.buyer, &[3; 20]);
    assert_eq!(rt; (answer.type_code, answer.amount), (4, 300));
    assert_eq!(rt; answer.transaction, Transaction::Refund);
    assert_eq!(rt;
        (answer.side_counter, answer.total_counter),
        (3, 2147483654)
    );
    same(&rt, answer.block, &[5; 256]);
    same(&rt, answer.seal, &[6; 256]);
    Ok(())
}

// Whether data has the fields of a signing answer.
fn has_fields(data: &[u8]) -> bool {
    SignedAnswer::read(data).is_some()
}

#[test]
fn sales_and_what_has_no_fields(rt: HostRuntime) -> Result<(), Fail> {
    let mut data = signed();
    put(&mut data, 49, &[0]);
    let answer = SignedAnswer::read(&data).ok_or("no fields")?;
    assert_eq!(rt; answer.transaction, Transaction::Sale);
    assert!(rt; data.get(..576).is_some_and(|cut| !has_fields(cut)));
    assert!(rt; !has_fields(&[0; 578]));
    assert!(rt; !has_fields(&[]));
    put(&mut data, 49, &[2]);
    assert!(rt; !has_fields(&data));
    Ok(())
}
