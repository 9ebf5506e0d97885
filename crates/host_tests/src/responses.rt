// Answers that are checked, and their data.
use crate::shared::same;
use host::{AnswerFault, CallError, StatusWord};
use std::alloc::{AllocError, Global};
use std::process::Abort;
use std::test::Fail;

// Each instruction, and how many bytes of data it answers.
const DATA: [(u8, usize); 9] = [
    (0xa4, 0),
    (0x08, 12),
    (0x16, 1),
    (0x14, 14),
    (0x15, 577),
    (0x11, 0),
    (0x13, 577),
    (0x12, 565),
    (0x40, 0),
];

// Checks that a response is an answer with this word.
fn accepts(rt: &impl Abort, instruction: u8, response: &[u8], word: StatusWord) {
    assert_eq!(rt; host::check_answer(instruction, response), Ok(word));
    assert_eq!(rt; host::examine(instruction, response), Ok(word));
}

// Checks that a response is refused with 3, for this reason.
fn refuses(rt: &impl Abort, instruction: u8, response: &[u8], fault: AnswerFault) {
    let unreadable = Err(CallError::Unreadable);
    assert_eq!(rt; host::check_answer(instruction, response), unreadable);
    assert_eq!(rt; host::examine(instruction, response), Err(fault));
}

// An accepted answer with so many bytes of data.
fn success(heap: Global, len: usize) -> Result<Vec<u8>, AllocError> {
    let mut response = Vec::from_elem(heap, 0, len)?;
    response.extend_from_slice(&[0x90, 0x00])?;
    Ok(response)
}

#[test]
fn success_wants_the_data_of_its_kind(rt: HostRuntime) -> Result<(), Fail> {
    let heap = rt.alloc();
    let wrong = AnswerFault::WrongDataLength;
    for (instruction, len) in DATA {
        assert!(rt; len < 580);
        let right = success(heap, len)?;
        accepts(&rt, instruction, &right, StatusWord::Success);
        refuses(&rt, instruction, &success(heap, len + 1)?, wrong);
        if len > 0 {
            refuses(&rt, instruction, &success(heap, len - 1)?, wrong);
        }
    }
    Ok(())
}

// The status words of refusals, with their values.
const REFUSALS: [(u16, StatusWord); 17] = [
    (0x6302, StatusWord::WrongPin),
    (0x6400, StatusWord::NoSeal),
    (0x6581, StatusWord::StoreRefused),
    (0x6700, StatusWord::WrongLength),
    (0x6982, StatusWord::PinNotVerified),
    (0x6983, StatusWord::PinBlocked),
    (0x6985, StatusWord::OverLimit),
    (0x6986, StatusWord::NotSelected),
    (0x6988, StatusWord::BadSeal),
    (0x6a80, StatusWord::BadBody),
    (0x6a82, StatusWord::UnknownApplet),
    (0x6a84, StatusWord::NoRoom),
    (0x6a86, StatusWord::WrongParameters),
    (0x6a88, StatusWord::NothingSigned),
    (0x6d00, StatusWord::UnknownInstruction),
    (0x6e00, StatusWord::UnknownClass),
    (0x6f00, StatusWord::UnsoundImage),
];

#[test]
fn every_refusal_of_the_card_stands_alone(rt: HostRuntime) {
    for (value, word) in REFUSALS {
        let [high, low] = value.to_be_bytes();
        for (instruction, _) in DATA {
            accepts(&rt, instruction, &[high, low], word);
            refuses(
                &rt,
                instruction,
                &[0, high, low],
                AnswerFault::DataWithRefusal,
            );
        }
    }
}

#[test]
fn other_status_words_are_unknown(rt: HostRuntime) {
    let unknown = AnswerFault::UnknownStatusWord;
    for value in [
        0x0000u16, 0x0090, 0x6301, 0x6303, 0x6310, 0x63ff, 0x6984, 0x6b00, 0x6f01, 0x8fff, 0x9001,
        0xffff,
    ] {
        refuses(&rt, 0x11, &value.to_be_bytes(), unknown);
    }
}

#[test]
fn short_responses_and_unknown_instructions(rt: HostRuntime) {
    refuses(&rt, 0x16, &[], AnswerFault::NoStatusWord);
    refuses(&rt, 0x16, &[0x90], AnswerFault::NoStatusWord);
    refuses(&rt, 0x99, &[0x90, 0x00], AnswerFault::UnknownInstruction);
    refuses(&rt, 0x88, &[], AnswerFault::UnknownInstruction);
}

#[test]
fn data_is_all_but_the_last_two_bytes(rt: HostRuntime) {
    same(&rt, host::answer_data(&[]), &[]);
    same(&rt, host::answer_data(&[0x90]), &[]);
    same(&rt, host::answer_data(&[0x90, 0x00]), &[]);
    same(&rt, host::answer_data(&[0x05, 0x90, 0x00]), &[0x05]);
    same(&rt, host::answer_data(&[1, 2, 3, 4, 5]), &[1, 2, 3]);
}
