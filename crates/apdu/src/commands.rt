// A command that was read: its kind, its header, its body with the place of that, and Le.
ghost use Rattle.std.specs.Prelude.{◌≡◌};
ghost use Rattle.apdu.specs.Reading.{header_of, header_bytes, command_read, request_read, read_as};

use crate::kinds::Kind;

#[derive(Clone, Copy)]
pub struct Header {
    pub class: u8,
    pub instruction: u8,
    pub p1: u8,
    pub p2: u8,
}

// The header in four bytes.
impl From<[u8; 4]> for Header {
    ghost from_gives = { λ bs h. h ≡ header_of bs };

    fn from([class, instruction, p1, p2]: [u8; 4]) -> Header {
        Header {
            class,
            instruction,
            p1,
            p2,
        }
    }
}

// The bytes of a header.
impl From<Header> for [u8; 4] {
    ghost from_gives = { λ h bs. bs ≡ header_bytes h };

    fn from(header: Header) -> [u8; 4] {
        [header.class, header.instruction, header.p1, header.p2]
    }
}

// What every command says: `place` is the offset of the body in the command, and `le` the most data that the sender
// takes.
#[derive(Clone, Copy)]
pub struct Request<'a> {
    pub header: Header,
    pub body: &'a [u8],
    pub place: usize,
    pub le: Option<u32>,
}

// A kind with what the command says: an enum whose cases borrow the body, by a rule of the project; `Kind` is the same
// without what is said.
#[derive(Clone, Copy)]
pub enum Command<'a> {
    Select(Request<'a>),
    Version(Request<'a>),
    Tries(Request<'a>),
    Amounts(Request<'a>),
    Last(Request<'a>),
    Pin(Request<'a>),
    Sign(Request<'a>),
    Export(Request<'a>),
    Directive(Request<'a>),
    Other(Request<'a>),
}

// The command that a request is, by its class and instruction.
impl<'a> From<Request<'a>> for Command<'a> {
    ghost from_gives = { λ r c. command_read c ≡ request_read r };

    fn from(request: Request<'a>) -> Command<'a> {
        match Kind::of(request.header.class, request.header.instruction) {
            Kind::Select => Command::Select(request),
            Kind::Version => Command::Version(request),
            Kind::Tries => Command::Tries(request),
            Kind::Amounts => Command::Amounts(request),
            Kind::Last => Command::Last(request),
            Kind::Pin => Command::Pin(request),
            Kind::Sign => Command::Sign(request),
            Kind::Export => Command::Export(request),
            Kind::Directive => Command::Directive(request),
            Kind::Other => Command::Other(request),
        }
    }
}

impl<'a> Command<'a> {
    // The kind of the command.
    pub fn kind(&self) -> Kind
        ensures { result ≡ (command_read self.now).kind }
    {
        match self {
            Command::Select(_) => Kind::Select,
            Command::Version(_) => Kind::Version,
            Command::Tries(_) => Kind::Tries,
            Command::Amounts(_) => Kind::Amounts,
            Command::Last(_) => Kind::Last,
            Command::Pin(_) => Kind::Pin,
            Command::Sign(_) => Kind::Sign,
            Command::Export(_) => Kind::Export,
            Command::Directive(_) => Kind::Directive,
            Command::Other(_) => Kind::Other,
        }
    }

    // What the command says besides its kind.
    pub fn request(self) -> Request<'a>
        ensures { read_as (command_read self.entry).kind result ≡ command_read self.entry }
    {
        match self {
            Command::Select(request)
            | Command::Version(request)
            | Command::Tries(request)
            | Command::Amounts(request)
            | Command::Last(request)
            | Command::Pin(request)
            | Command::Sign(request)
            | Command::Export(request)
            | Command::Directive(request)
            | Command::Other(request) => request,
        }
    }
}
