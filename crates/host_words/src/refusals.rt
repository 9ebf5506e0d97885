// Refusals in words.
ghost use Rattle.std.specs.Prelude.{◌≡◌};
ghost use Rattle.std.specs.Option.{option_map};
ghost use Rattle.host_words.specs.Refusals.{refused_text};

use host::CallError;
use std::fmt;

// A refusal, and the reason that it was made of.
#[derive(Clone, Copy)]
pub struct Refused<R> {
    pub refusal: CallError,
    pub reason: R,
}

impl<R: Copy> Refused<R>
where
    CallError: From<R>,
{
    // The refusal that a reason becomes.
    pub fn by(reason: R) -> Refused<R>
        ensures reason { result.reason ≡ reason }
        ensures refusal { ⟦<CallError as From<R>>⟧.from_gives reason result.refusal }
    {
        Refused {
            refusal: CallError::from(reason),
            reason,
        }
    }
}

impl<R: fmt::Display> fmt::Display for Refused<R> {
    ghost output = { λ r. option_map (refused_text r.refusal) (R.output r.reason) };

    fn fmt<W: fmt::Write>(&self, f: &mut fmt::Formatter<W>) -> fmt::Result {
        let Refused { refusal, reason } = self;
        let code = u8::from(*refusal);
        write!(f, "refused with {code} ({refusal}): {reason}")
    }
}
