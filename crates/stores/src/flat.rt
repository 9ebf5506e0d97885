// The flat store: the writes left, then the image.
ghost use Rattle.std.specs.Prelude.{◌≡◌, ◌≢◌, length, take, drop, Ok, MatchOption};
ghost use Rattle.std.proofs.Common.{ap};
ghost use Rattle.stores.specs.Meaning.{accepted, writing, image_after, left_after, laying};
ghost use Rattle.stores.specs.Sizes.{left_width, flat_size};
ghost use Rattle.stores.specs.Flat.{flat_filled, flat_image, flat_left, flat_written, flat_fits, flat_laid, flat_whole};

use crate::store::{IMAGE_SIZE, Store, WriteRefused, give, no_image};
use status::CallError;

// The bytes of the writes left, and of the whole memory.
const LEFT_WIDTH: usize = 4;

pub const FLAT_SIZE: usize = LEFT_WIDTH + IMAGE_SIZE;

// A store over memory of 839 bytes; over other memory it means zeros and no writes left.
#[derive(Drop)]
pub struct FlatStore<'m> {
    memory: &'m mut [u8],
}

impl<'m> FlatStore<'m> {
    // The store over a memory.
    pub fn new(memory: &'m mut [u8]) -> FlatStore<'m>
        ensures memory { result.memory.now ≡ memory.old }
        ensures lender { result.memory.ghost_name ≡ memory.entry.ghost_name }
    {
        FlatStore { memory }
    }

    // The memory under the store.
    pub fn memory(&self) -> &[u8]
        ensures { result.now ≡ self.now.memory.now }
    {
        self.memory
    }

    // The writes left.
    pub fn writes_left(&self) -> u32
        ensures { result ≡ flat_left self.now.memory.now }
    {
        left_in(self.memory)
    }

    // Writes a new image over the old one in a memory, as a store over it does.
    #[tactic(auto, using(crate::proofs::Flats::value_put, crate::proofs::Flats::image_put, crate::proofs::Flats::left_put, crate::proofs::Flats::memory_put))]
    pub fn write_to(memory: &mut [u8], new: &[u8]) -> Result<(), WriteRefused>
        ensures value { result ≡ writing (accepted (flat_left memory.old) new.now) }
        ensures after { memory.new ≡ flat_written memory.old new.now }
        ensures image { flat_image memory.new ≡ image_after (flat_image memory.old) (flat_left memory.old) new.now }
        ensures left { flat_left memory.new ≡ left_after (flat_left memory.old) new.now }
    {
        let rest = left_in(memory).checked_sub(1).ok_or(WriteRefused)?;
        let image = new.as_array().ok_or(WriteRefused)?;
        let memory = memory.as_mut_array().ok_or(WriteRefused)?;
        fill(memory, rest, image);
        Ok(())
    }

    // Lays an image and its writes left in a memory.
    pub fn lay(memory: &mut [u8], image: &[u8], left: u32) -> Result<(), CallError>
        ensures value { result ≡ laying (flat_fits image.now memory.old) }
        ensures after { memory.new ≡ flat_laid image.now left memory.old }
        ensures image { result ≡ Ok tt → flat_image memory.new ≡ image.now }
        ensures left { result ≡ Ok tt → flat_left memory.new ≡ left }
    {
        let image = image.as_array().ok_or(CallError::BadMemory)?;
        let memory = memory.as_mut_array().ok_or(CallError::BadMemory)?;
        fill(memory, left, image);
        Ok(())
    }
}

// Fills the memory with writes left and an image.
fn fill(memory: &mut [u8; FLAT_SIZE], left: u32, image: &[u8; IMAGE_SIZE])
    ensures after { memory.new ≡ flat_filled left image.now }
    ensures image { flat_image memory.new ≡ image.now }
    ensures left { flat_left memory.new ≡ left }
{
    memory[..LEFT_WIDTH].copy_from_slice(&left.to_be_bytes());
    memory[LEFT_WIDTH..].copy_from_slice(image);
}

// The bytes of the writes left and the image in a memory; only one of the right size has any.
fn parts(memory: &[u8]) -> Option<(&[u8; LEFT_WIDTH], &[u8; IMAGE_SIZE])>
    ensures { MatchOption result (length memory.now ≢ flat_size) (λ p. (length memory.now ≡ flat_size) × (p.0.now ≡ take left_width memory.now) × (p.1.now ≡ drop left_width memory.now)) }
{
    let (left, image) = memory.split_first_chunk()?;
    Some((left, image.as_array()?))
}

// The writes left that a memory means.
fn left_in(memory: &[u8]) -> u32
    ensures { result ≡ flat_left memory.now }
{
    parts(memory).map_or(0, |(left, _)| u32::from_be_bytes(*left))
}

// The image that a memory means.
#[tactic(auto, using(crate::proofs::Flats::flat_image_good, crate::proofs::Flats::flat_image_bad))]
fn image_in(memory: &[u8]) -> &[u8; IMAGE_SIZE]
    ensures { result.now ≡ flat_image memory.now }
{
    parts(memory).map_or(no_image(), |(_, image)| image)
}

impl Store for FlatStore<'_> {
    ghost image = { λ s. flat_image s.memory.now };

    ghost left = { λ s. flat_left s.memory.now };

    ghost whole = { λ s. flat_whole s.memory.now };

    ghost memory = { λ s. s.memory.now };

    ghost rewritten = { λ s. flat_written s.memory.now };

    ghost lender = { λ s. s.memory.ghost_name };

    ghost meant = { λ s t e. (ap flat_image e, ap flat_left e) };

    fn read(&self, out: &mut [u8]) -> Result<(), CallError> {
        give(image_in(self.memory), out)
    }

    fn write(&mut self, new: &[u8]) -> Result<(), WriteRefused> {
        FlatStore::write_to(self.memory, new)
    }
}
