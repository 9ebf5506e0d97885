// The kinds of command, by class and instruction.
ghost use Rattle.std.specs.Prelude.{◌≡◌, Some};
ghost use Rattle.apdu.specs.Kinds.{kind_of, kind_named, kind_name};

use std::fmt;

#[derive(Clone, Copy, PartialEq, Eq, Debug)]
pub enum Kind {
    Select,
    Version,
    Tries,
    Amounts,
    Last,
    Pin,
    Sign,
    Export,
    Directive,
    Other,
}

impl Kind {
    // The kind of a command, by class and instruction alone.
    pub fn of(class: u8, instruction: u8) -> Kind
        ensures { result ≡ kind_of class instruction }
    {
        match (class, instruction) {
            (0x00, 0xa4) => Kind::Select,
            (0x88, 0x08) => Kind::Version,
            (0x88, 0x16) => Kind::Tries,
            (0x88, 0x14) => Kind::Amounts,
            (0x88, 0x15) => Kind::Last,
            (0x88, 0x11) => Kind::Pin,
            (0x88, 0x13) => Kind::Sign,
            (0x88, 0x12) => Kind::Export,
            (0x88, 0x40) => Kind::Directive,
            _ => Kind::Other,
        }
    }

    // The kind that an instruction names by itself, where the class is not told.
    pub fn named(instruction: u8) -> Kind
        ensures { result ≡ kind_named instruction }
    {
        match Kind::of(0x00, instruction) {
            Kind::Other => Kind::of(0x88, instruction),
            kind => kind,
        }
    }
}

impl fmt::Display for Kind {
    ghost output = { λ k. Some (kind_name k) };

    fn fmt<W: fmt::Write>(&self, f: &mut fmt::Formatter<W>) -> fmt::Result {
        f.pad(match self {
            Kind::Select => "select",
            Kind::Version => "version",
            Kind::Tries => "tries",
            Kind::Amounts => "amounts",
            Kind::Last => "last",
            Kind::Pin => "PIN",
            Kind::Sign => "sign",
            Kind::Export => "export",
            Kind::Directive => "directive",
            Kind::Other => "other",
        })
    }
}
