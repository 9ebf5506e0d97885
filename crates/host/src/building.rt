// Building a command from an instruction and a body.
ghost use Rattle.std.specs.Prelude.{◌≡◌, ℕ, ◌≤◌, length, take, Ok};
ghost use Rattle.apdu.specs.Kinds.{kind_named};
ghost use Rattle.host.specs.Building.{composed, composed_after, built};
ghost use Rattle.host.specs.Back.{ReadBack};

use crate::faults::BuildFault;
use crate::forms::Form;
use crate::writing::put_command;
use apdu::Kind;
use status::CallError;

// Writes the command of an instruction and a body to the beginning of `out`, and answers how many bytes it has; or
// says why it is not written. The command reader reads it back.
#[tactic(auto, using(crate::proofs::Fitting::allowed, crate::proofs::Fitting::whole))]
pub fn compose(instruction: u8, body: &[u8], out: &mut [u8]) -> Result<usize, BuildFault>
    ensures value { result ≡ composed instruction body.now out.old }
    ensures after { out.new ≡ composed_after instruction body.now out.old }
    ensures back { (n : ℕ) → result ≡ Ok n → ReadBack (kind_named instruction) body.now (take n out.new) }
    ensures within { (n : ℕ) → result ≡ Ok n → n ≤ length out.new }
{
    let form = Form::of(Kind::named(instruction)).ok_or(BuildFault::UnknownInstruction)?;
    form.body.check(body)?;
    put_command(form, body, out)
}

// The same, where every fault is refused by its number. Kept beside it for callers that hand on the number of a call.
pub fn build(instruction: u8, body: &[u8], out: &mut [u8]) -> Result<usize, CallError>
    ensures value { result ≡ built instruction body.now out.old }
    ensures after { out.new ≡ composed_after instruction body.now out.old }
    ensures back { (n : ℕ) → result ≡ Ok n → ReadBack (kind_named instruction) body.now (take n out.new) }
    ensures within { (n : ℕ) → result ≡ Ok n → n ≤ length out.new }
{
    Ok(compose(instruction, body, out)?)
}
