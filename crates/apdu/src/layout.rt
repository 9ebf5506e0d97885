// The forms of a command: four header bytes, and a rest that decides where the body lies and what Le is.
ghost use Rattle.std.specs.Prelude.{◌≡◌};
ghost use Rattle.apdu.specs.Forms.{formed};
ghost use Rattle.apdu.specs.Reading.{request_result, at_form, parsed};

use crate::commands::{Header, Request};
use crate::faults::Fault;
use crate::lengths::Lengths;

// Reads the header, and the rest by its form.
pub(crate) fn request_of(bytes: &[u8]) -> Result<Request<'_>, Fault>
    ensures { request_result result ≡ parsed bytes.now }
{
    let [class, instruction, p1, p2, rest @ ..] = bytes else {
        return Err(Fault::NoHeader);
    };
    request_at(Header::from([*class, *instruction, *p1, *p2]), rest)
}

// What follows the header: nothing, lengths of two bytes behind a byte `00`, or lengths of one byte.
fn request_at(header: Header, rest: &[u8]) -> Result<Request<'_>, Fault>
    ensures { request_result result ≡ at_form header (formed rest.now) }
{
    match rest {
        [] => Ok(Request {
            header,
            body: rest,
            place: 4,
            le: None,
        }),
        [0, long @ ..] if !long.is_empty() => Lengths::<2> {}.request(header, long),
        short => Lengths::<1> {}.request(header, short),
    }
}
