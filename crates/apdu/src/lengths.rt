// Lengths of one byte, or of two behind a byte `00`: an Le alone, or an Lc with its body and an Le behind that.
ghost use Rattle.std.specs.Prelude.{◌≡◌, ◌+◌, ◌*◌, ◌≤◌};
ghost use Rattle.octets.specs.Big.{big};
ghost use Rattle.apdu.specs.Forms.{le_said, le_behind, body_form, sized};
ghost use Rattle.apdu.specs.Reading.{request_result, at_form};

use crate::commands::{Header, Request};
use crate::faults::Fault;
use octets::read_be;

// Lengths of W bytes each, at most two.
#[derive(Clone, Copy)]
pub(crate) struct Lengths<const W: usize> {
    ghost narrow: { W ≤ 2 },
}

// The methods take `self` for the bound of W alone, which each would else ask for in a clause of its own.
impl<const W: usize> Lengths<W> {
    // What follows the header, from the first length on: that is an Le if nothing follows it.
    pub(crate) fn request(self, header: Header, bytes: &[u8]) -> Result<Request<'_>, Fault>
        ensures { request_result result ≡ at_form header (sized W (3 + 2 * W) bytes.now) }
    {
        match bytes.split_first_chunk::<W>() {
            None => Err(Fault::HalfLength),
            Some((le, body @ [])) => Ok(Request {
                header,
                body,
                place: 4,
                le: Some(self.le(le)),
            }),
            Some((lc, rest)) => self.with_body(header, self.number(lc), rest),
        }
    }

    // What follows an Lc: the body, and what stands behind it. Before the body stand four header bytes, the byte `00`
    // of lengths of two bytes, and Lc.
    fn with_body(self, header: Header, lc: u16, rest: &[u8]) -> Result<Request<'_>, Fault>
        ensures { request_result result ≡ at_form header (body_form W (3 + 2 * W) lc rest.now) }
    {
        if lc == 0 {
            return Err(Fault::EmptyBody);
        }
        let (body, behind) = rest
            .split_at_checked(usize::from(lc))
            .ok_or(Fault::CutBody)?;
        Ok(Request {
            header,
            body,
            place: 3 + 2 * W,
            le: self.le_behind(behind)?,
        })
    }

    // What stands behind a body: nothing, or an Le.
    fn le_behind(self, bytes: &[u8]) -> Result<Option<u32>, Fault>
        ensures { result ≡ le_behind W bytes.now }
    {
        if bytes.is_empty() {
            return Ok(None);
        }
        match bytes.split_first_chunk::<W>() {
            None => Err(Fault::HalfLe),
            Some((le, [])) => Ok(Some(self.le(le))),
            Some(_) => Err(Fault::TrailingBytes),
        }
    }

    // An Le, in which 0 stands for the number past the largest that its bytes write.
    #[tactic(auto, using(crate::proofs::Narrow::power_narrow))]
    fn le(self, bytes: &[u8; W]) -> u32
        ensures { result ≡ le_said W (big bytes.now) }
    {
        match self.number(bytes) {
            // W is at most 2: `try_from` would need an `unwrap`.
            0 => 256u32.pow(W as u32),
            n => u32::from(n),
        }
    }

    // The number that a length writes. By `as`: two bytes at most write a u16, and `try_from` would need an `unwrap`.
    #[tactic(auto, using(crate::proofs::Narrow::power_narrow))]
    fn number(self, bytes: &[u8; W]) -> u16
        ensures { result ≡ big bytes.now }
    {
        read_be(bytes).unwrap() as u16
    }
}
