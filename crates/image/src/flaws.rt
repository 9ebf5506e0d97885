// The ways in which an image can be unsound.
ghost use Rattle.std.specs.Prelude.{Some};
ghost use Rattle.image.specs.Flaws.{flaw_name};

use std::error::Error;
use std::fmt;

#[derive(Clone, Copy, PartialEq, Eq, Debug)]
pub enum Flaw {
    Size,
    Kinds,
    MarkFlag,
    LastFlag,
    Total,
    OverLimit,
    MarkCounter,
    MarkAmount,
    Pin,
    Tries,
    LastAnswer,
}

impl fmt::Display for Flaw {
    ghost output = { λ f. Some (flaw_name f) };

    fn fmt<W: fmt::Write>(&self, f: &mut fmt::Formatter<W>) -> fmt::Result {
        f.pad(match self {
            Flaw::Size => "not 835 bytes",
            Flaw::Kinds => "a wrong kind byte",
            Flaw::MarkFlag => "a bad mark flag",
            Flaw::LastFlag => "a bad last flag",
            Flaw::Total => "total counter too large",
            Flaw::OverLimit => "unaudited amount over the limit",
            Flaw::MarkCounter => "marked counter over the total",
            Flaw::MarkAmount => "marked amount over the unaudited",
            Flaw::Pin => "PIN not four digits",
            Flaw::Tries => "more than five tries",
            Flaw::LastAnswer => "last answer and total disagree",
        })
    }
}

impl Error for Flaw {}
