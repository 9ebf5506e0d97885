// Writing a command.
ghost use Rattle.std.specs.Prelude.{◌≡◌, ℕ, ◌<◌, ◌≤◌, [], ◌∷◌, ◌++◌, length, Ok};
ghost use Rattle.apdu.specs.Writings.{Allowed, body_of};
ghost use Rattle.host.specs.Published.{shaped, command_in};
ghost use Rattle.host.specs.Building.{put_value, put_after};

use crate::faults::BuildFault;
use crate::forms::{Form, Shape};
use apdu::Header;

// Writes the command of a form with a body that it takes to the beginning of `out`, and answers its length. An Le
// alone is written as the length of no body is, since the largest Le of a width is all zeros.
// A length and no part of `out` is answered: what `out` then holds could not be told.
pub(crate) fn put_command(form: Form, body: &[u8], out: &mut [u8]) -> Result<usize, BuildFault>
    requires allowed { Allowed (shaped form.shape body.now) }
    requires whole { body_of (shaped form.shape body.now) ≡ body.now }
    ensures value { result ≡ put_value (command_in form body.now) out.old }
    ensures after { out.new ≡ put_after (command_in form body.now) out.old }
    ensures within { (n : ℕ) → result ≡ Ok n → n ≤ length out.new }
{
    let header = form.header;
    // By `as`: such a body has fewer than 65536 bytes, and `try_from` would need an `unwrap`.
    let [high, low] = (body.len() as u16).to_be_bytes();
    match form.shape {
        Shape::ShortLe | Shape::ShortBody => put_parts(header, &[low], body, &[], out),
        Shape::ShortBoth => put_parts(header, &[low], body, &[0], out),
        Shape::LongLe | Shape::LongBody => put_parts(header, &[0, high, low], body, &[], out),
        Shape::LongBoth => put_parts(header, &[0, high, low], body, &[0, 0], out),
    }
}

// Writes what stands before a body, the body, and what stands behind it, one after the other to the beginning of
// `out`, and answers how many bytes these are.
fn put_parts(
    header: Header,
    lc: &[u8],
    body: &[u8],
    le: &[u8],
    out: &mut [u8],
) -> Result<usize, BuildFault>
    requires lc { length lc.now ≤ 3 }
    requires body { length body.now < 65536 }
    requires le { length le.now ≤ 2 }
    ensures value { result ≡ put_value (header.class ∷ header.instruction ∷ header.p1 ∷ header.p2 ∷ lc.now ++ (body.now ++ le.now)) out.old }
    ensures after { out.new ≡ put_after (header.class ∷ header.instruction ∷ header.p1 ∷ header.p2 ∷ lc.now ++ (body.now ++ le.now)) out.old }
    ensures within { (n : ℕ) → result ≡ Ok n → n ≤ length out.new }
{
    let header = <[u8; 4]>::from(header);
    let end = header.len() + lc.len() + body.len() + le.len();
    let (place, _) = out
        .split_at_mut_checked(end)
        .ok_or(BuildFault::SmallBuffer)?;
    let (header_place, rest) = place.split_at_mut(header.len());
    let (lc_place, rest) = rest.split_at_mut(lc.len());
    let (body_place, le_place) = rest.split_at_mut(body.len());
    header_place.copy_from_slice(&header);
    lc_place.copy_from_slice(lc);
    body_place.copy_from_slice(body);
    le_place.copy_from_slice(le);
    Ok(end)
}
