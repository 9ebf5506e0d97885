// Personalisation: the first image of a card.
ghost use Rattle.std.specs.Prelude.{◌≡◌, true, Ok, OnOk};
ghost use Rattle.image.specs.Layout.{meaning};
ghost use Rattle.image.specs.Sound.{pin_good, image_read};
ghost use Rattle.image.specs.Personal.{personal, pin_entered, personal_value, personal_after};

use crate::fields::Image;
use crate::places::PIN_SIZE;
use crate::sound::{MOST_TRIES, is_pin};
use ledger::{Measure, Tally};
use status::CallError;
use stores::IMAGE_SIZE;

// Fills `out` with the first image of a card, which is sound.
pub fn personalise(
    pin: &[u8],
    limit: u64,
    key_version: u32,
    out: &mut [u8],
) -> Result<(), CallError>
    ensures value { result ≡ personal_value pin.now limit out.old }
    ensures after { out.new ≡ personal_after pin.now limit key_version out.old }
    ensures sound { result ≡ Ok tt → image_read out.new ≡ Ok (personal pin.now limit key_version) }
{
    if out.len() != IMAGE_SIZE {
        return Err(CallError::SmallBuffer);
    }
    first(pin_of(pin)?, limit, key_version).write(out)
}

// The four digits of a PIN, if it has them.
fn pin_of(pin: &[u8]) -> Result<[u8; PIN_SIZE], CallError>
    ensures value { result ≡ pin_entered pin.now }
    ensures good { OnOk result (pin_good pin.now ≡ true) }
{
    pin.as_array()
        .filter(|pin| is_pin(pin))
        .copied()
        .ok_or(CallError::BadField)
}

// The first image of a card.
fn first(pin: [u8; PIN_SIZE], limit: u64, key_version: u32) -> Image
    ensures { meaning result ≡ personal pin limit key_version }
{
    Image {
        counters: Tally::zero(),
        sums: Tally::zero(),
        unaudited: 0,
        limit,
        mark: None,
        pin,
        tries: MOST_TRIES,
        rows: Tally::zero(),
        last: None,
        key_version,
    }
}
