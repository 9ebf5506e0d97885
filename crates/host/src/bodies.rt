// Which bodies a command takes.
ghost use Rattle.std.specs.Prelude.{◌≡◌};
ghost use Rattle.host.specs.Building.{body_fault, unless};
ghost use Rattle.host.specs.declared.bodies.Body.TheVariants.{Invoice as invoice_rule};

use crate::faults::BuildFault;
use measures::{Invoice, is_signing_length};

// The rule of a command's bodies: all have one length, or are signing bodies by the check that the card makes.
#[derive(Clone, Copy)]
pub(crate) enum Body {
    Sized(usize),
    Invoice,
}

impl Body {
    // Refuses a body that the rule does not take.
    pub(crate) fn check(self, body: &[u8]) -> Result<(), BuildFault>
        ensures { result ≡ unless (body_fault self body.now) }
    {
        match self {
            Body::Sized(len) if body.len() != len => Err(BuildFault::WrongBodyLength),
            Body::Sized(_) => Ok(()),
            Body::Invoice => check_invoice(body),
        }
    }
}

// Refuses a body that is not a signing body.
fn check_invoice(body: &[u8]) -> Result<(), BuildFault>
    ensures { result ≡ unless (body_fault invoice_rule body.now) }
{
    if !is_signing_length(body.len()) {
        return Err(BuildFault::WrongBodyLength);
    }
    Invoice::read(body).ok_or(BuildFault::MalformedInvoice)?;
    Ok(())
}
