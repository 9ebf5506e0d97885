// The status words of the card.
ghost use Rattle.std.specs.Prelude.{◌≡◌, Some};
ghost use Rattle.std.specs.Option.{ok_or};
ghost use Rattle.status.specs.Words.{word_value, word_name, word_known, unknown_text};

use std::error::Error;
use std::fmt;

#[derive(Clone, Copy, PartialEq, Eq, Debug)]
pub enum StatusWord {
    Success = 0x9000,
    WrongPin = 0x6302,
    NoSeal = 0x6400,
    StoreRefused = 0x6581,
    WrongLength = 0x6700,
    PinNotVerified = 0x6982,
    PinBlocked = 0x6983,
    OverLimit = 0x6985,
    NotSelected = 0x6986,
    BadSeal = 0x6988,
    BadBody = 0x6a80,
    UnknownApplet = 0x6a82,
    NoRoom = 0x6a84,
    WrongParameters = 0x6a86,
    NothingSigned = 0x6a88,
    UnknownInstruction = 0x6d00,
    UnknownClass = 0x6e00,
    UnsoundImage = 0x6f00,
}

// A value of no status word.
#[derive(Clone, Copy, PartialEq, Eq, Debug)]
pub struct UnknownWord {
    pub value: u16,
}

// The two bytes that end an answer, as a number.
impl From<StatusWord> for u16 {
    ghost from_gives = { λ w n. n ≡ word_value w };

    fn from(word: StatusWord) -> u16 {
        word as u16
    }
}

// The word of a value. Each value stands once more: a number has no other way back to its case.
impl TryFrom<u16> for StatusWord {
    type Error = UnknownWord;

    ghost try_from_gives = { λ n r. r ≡ ok_or (word_known n) (record { value = n }) };

    fn try_from(value: u16) -> Result<StatusWord, UnknownWord> {
        Ok(match value {
            0x9000 => StatusWord::Success,
            0x6302 => StatusWord::WrongPin,
            0x6400 => StatusWord::NoSeal,
            0x6581 => StatusWord::StoreRefused,
            0x6700 => StatusWord::WrongLength,
            0x6982 => StatusWord::PinNotVerified,
            0x6983 => StatusWord::PinBlocked,
            0x6985 => StatusWord::OverLimit,
            0x6986 => StatusWord::NotSelected,
            0x6988 => StatusWord::BadSeal,
            0x6a80 => StatusWord::BadBody,
            0x6a82 => StatusWord::UnknownApplet,
            0x6a84 => StatusWord::NoRoom,
            0x6a86 => StatusWord::WrongParameters,
            0x6a88 => StatusWord::NothingSigned,
            0x6d00 => StatusWord::UnknownInstruction,
            0x6e00 => StatusWord::UnknownClass,
            0x6f00 => StatusWord::UnsoundImage,
            _ => return Err(UnknownWord { value }),
        })
    }
}

impl fmt::Display for StatusWord {
    ghost output = { λ w. Some (word_name w) };

    fn fmt<W: fmt::Write>(&self, f: &mut fmt::Formatter<W>) -> fmt::Result {
        f.pad(match self {
            StatusWord::Success => "success",
            StatusWord::WrongPin => "wrong PIN",
            StatusWord::NoSeal => "no seal",
            StatusWord::StoreRefused => "store refused the write",
            StatusWord::WrongLength => "wrong length",
            StatusWord::PinNotVerified => "PIN not verified",
            StatusWord::PinBlocked => "PIN blocked",
            StatusWord::OverLimit => "over the limit",
            StatusWord::NotSelected => "applet not selected",
            StatusWord::BadSeal => "bad seal",
            StatusWord::BadBody => "bad body",
            StatusWord::UnknownApplet => "unknown applet",
            StatusWord::NoRoom => "no room in a tally",
            StatusWord::WrongParameters => "wrong parameters",
            StatusWord::NothingSigned => "nothing signed",
            StatusWord::UnknownInstruction => "unknown instruction",
            StatusWord::UnknownClass => "unknown class",
            StatusWord::UnsoundImage => "unsound image",
        })
    }
}

impl fmt::Display for UnknownWord {
    ghost output = { λ u. Some (unknown_text u) };

    fn fmt<W: fmt::Write>(&self, f: &mut fmt::Formatter<W>) -> fmt::Result {
        write!(f, "no status word has the value {}", self.value)
    }
}

impl Error for UnknownWord {}
