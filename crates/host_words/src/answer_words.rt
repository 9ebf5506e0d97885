// Answers in words.
use crate::commands::Hex;
use crate::refusals::Refused;
use host::{AmountsAnswer, Kind, SignedAnswer, Transaction};
use std::fmt;

// The status word and the data of a response to an instruction, with the fields of data that has some; or why the
// response is refused.
#[derive(Clone, Copy)]
pub struct AnswerWords<'a> {
    pub instruction: u8,
    pub response: &'a [u8],
}

impl fmt::Display for AnswerWords<'_> {
    fn fmt<W: fmt::Write>(&self, f: &mut fmt::Formatter<W>) -> fmt::Result {
        write!(f, "answer {:02X}: ", self.instruction)?;
        match host::examine(self.instruction, self.response) {
            Ok(word) => {
                let data = host::answer_data(self.response);
                write!(f, "{:04X} ({word}), data {}", u16::from(word), Hex(data))?;
                write_fields(f, Kind::named(self.instruction), data)
            }
            Err(fault) => write!(f, "{}", Refused::by(fault)),
        }
    }
}

// Writes the fields of data that has some.
fn write_fields<W: fmt::Write>(f: &mut fmt::Formatter<W>, kind: Kind, data: &[u8]) -> fmt::Result {
    match kind {
        Kind::Amounts => {
            if let Some(AmountsAnswer { unaudited, limit }) = AmountsAnswer::read(data) {
                write!(f, "\n  unaudited amount {unaudited}, limit {limit}")?;
            }
        }
        Kind::Last | Kind::Sign => {
            if let Some(signed) = SignedAnswer::read(data) {
                write_signed(f, &signed)?;
            }
        }
        _ => {}
    }
    Ok(())
}

// Writes the fields of a signing answer.
fn write_signed<W: fmt::Write>(
    f: &mut fmt::Formatter<W>,
    signed: &SignedAnswer<'_>,
) -> fmt::Result {
    let side = match signed.transaction {
        Transaction::Sale => "sale",
        Transaction::Refund => "refund",
    };
    write!(f, "\n  date {}", Hex(signed.date))?;
    write!(f, "\n  taxpayer {}", Hex(signed.taxpayer))?;
    write!(f, "\n  buyer {}", Hex(signed.buyer))?;
    write!(
        f,
        "\n  {side} of {}, type {}",
        signed.amount, signed.type_code
    )?;
    write!(
        f,
        "\n  {side} counter {}, total counter {}",
        signed.side_counter, signed.total_counter
    )?;
    write!(f, "\n  covered block {}", Hex(signed.block))?;
    write!(f, "\n  seal {}", Hex(signed.seal))
}
