// What a store means.
ghost use Rattle.std.specs.Prelude.{◌≡◌, ℕ, List, length, Some};
ghost use Rattle.stores.specs.Sizes.{image_size};
ghost use Rattle.stores.specs.Meaning.{no_image, readable, read_after, accepted, writing, image_after, left_after, refused_text};

use status::CallError;
use std::error::Error;
use std::fmt;

// The bytes of an image.
pub const IMAGE_SIZE: usize = 835;

// A new image of another size, or one where no writes are left, is not written.
#[derive(Clone, Copy, PartialEq, Eq, Debug)]
pub struct WriteRefused;

impl fmt::Display for WriteRefused {
    ghost output = { λ _. Some refused_text };

    fn fmt<W: fmt::Write>(&self, f: &mut fmt::Formatter<W>) -> fmt::Result {
        f.pad("write refused")
    }
}

impl Error for WriteRefused {}

pub trait Store {
    // the image that the store means, and its writes left
    ghost image: { Self → List ℕ };

    ghost left: { Self → ℕ };

    // an image has its size
    ghost whole: { (s : Self) → length (image s) ≡ image_size };

    // the memory under the store, and what it holds after a new image was written or refused
    ghost memory: { Self → List ℕ };

    ghost rewritten: { Self → List ℕ → List ℕ };

    // which memory was lent to the store: it keeps that, so that the lender gets back what the store leaves
    ghost lender: { Self → ℕ };

    // stores over the same memory mean the same
    ghost meant: { (s t : Self) → memory s ≡ memory t → (image s ≡ image t) × (left s ≡ left t) };

    // Reads the image into the beginning of `out`.
    fn read(&self, out: &mut [u8]) -> Result<(), CallError>
        ensures value { result ≡ readable (length out.old) }
        ensures after { out.new ≡ read_after (image self.now) out.old };

    // Writes a new image. One that is refused alters nothing.
    fn write(&mut self, new: &[u8]) -> Result<(), WriteRefused>
        ensures value { result ≡ writing (accepted (left self.old) new.now) }
        ensures image { image self.new ≡ image_after (image self.old) (left self.old) new.now }
        ensures left { left self.new ≡ left_after (left self.old) new.now }
        ensures memory { memory self.new ≡ rewritten self.old new.now }
        ensures lender { lender self.new ≡ lender self.old };
}

// The image that bad memory means: zeros.
pub(crate) fn no_image() -> &'static [u8; IMAGE_SIZE]
    ensures { result.now ≡ no_image }
{
    &[0; IMAGE_SIZE]
}

// Gives an image to the beginning of `out`. The image and the sealers have these lines as well: one for all would be no
// shorter.
pub(crate) fn give(image: &[u8; IMAGE_SIZE], out: &mut [u8]) -> Result<(), CallError>
    ensures value { result ≡ readable (length out.old) }
    ensures after { out.new ≡ read_after image.now out.old }
{
    let place = out.first_chunk_mut().ok_or(CallError::SmallBuffer)?;
    *place = *image;
    Ok(())
}
