// What a sealer means: two rules that never change, and a call for each.
ghost use Rattle.std.specs.Prelude.{◌≡◌, ℕ, List, Option};
ghost use Rattle.sealers.specs.Rules.{Keeps, room, sealer_value, sealer_after};

use status::CallError;

// The bytes that a rule gives.
pub const ANSWER_SIZE: usize = 256;

// The bytes of a block that has a cover.
pub const BLOCK_SIZE: usize = 256;

pub trait Sealer {
    // the cover of each block, or none
    ghost cover_rule: { Self → List ℕ → Option (List ℕ) };

    // the seal of each message, or none
    ghost seal_rule: { Self → List ℕ → Option (List ℕ) };

    // the sizes of what the rules take and give
    ghost kept: { (s : Self) → Keeps (cover_rule s) (seal_rule s) };

    // Writes the cover of a block to the front of `out`, and says whether there is one.
    // A bool: none is an answer and no refusal, which has a number; and a result that lends the written part would
    // leave no clause that names what `out` holds.
    fn cover(&mut self, block: &[u8], out: &mut [u8]) -> Result<bool, CallError>
        ensures value { result ≡ sealer_value (cover_rule self.old block.now) out.old }
        ensures after { out.new ≡ sealer_after (cover_rule self.old block.now) out.old }
        ensures cover_kept { cover_rule self.new ≡ cover_rule self.old }
        ensures seal_kept { seal_rule self.new ≡ seal_rule self.old };

    // Writes the seal of a message to the front of `out`, and says whether there is one. A bool, as for `cover`.
    fn seal(&mut self, message: &[u8], out: &mut [u8]) -> Result<bool, CallError>
        ensures value { result ≡ sealer_value (seal_rule self.old message.now) out.old }
        ensures after { out.new ≡ sealer_after (seal_rule self.old message.now) out.old }
        ensures cover_kept { cover_rule self.new ≡ cover_rule self.old }
        ensures seal_kept { seal_rule self.new ≡ seal_rule self.old };
}

// Refuses a buffer that is too small for an answer. It is asked before a rule is: what that takes grows with the message
// or the deck.
pub(crate) fn check_room(out: &[u8]) -> Result<(), CallError>
    ensures { result ≡ room out.now }
{
    if out.len() < ANSWER_SIZE {
        return Err(CallError::SmallBuffer);
    }
    Ok(())
}

// Writes what a rule gives to the front of `out`, and says whether it gives an answer.
#[tactic(auto, using(crate::proofs::Buffers::left_value, crate::proofs::Buffers::left_after, crate::proofs::Buffers::placed_after))]
pub(crate) fn place(given: Option<[u8; ANSWER_SIZE]>, out: &mut [u8]) -> Result<bool, CallError>
    ensures value { result ≡ sealer_value given out.old }
    ensures after { out.new ≡ sealer_after given out.old }
{
    let front = out.first_chunk_mut().ok_or(CallError::SmallBuffer)?;
    let Some(answer) = given else {
        return Ok(false);
    };
    *front = answer;
    Ok(true)
}
