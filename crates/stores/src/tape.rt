// The tape store: records of a kind byte and an image, written one after the other.
ghost use Rattle.std.specs.Prelude.{◌≡◌, ◌-◌, ◌<◌, ◌≤◌, ◌∷◌, length, drop, refl, Ok, Some, MatchOption, slice_index};
ghost use Rattle.std.specs.List.{prefix_len, list_all};
ghost use Rattle.stores.specs.Sizes.{record_size, kind_free};
ghost use Rattle.stores.specs.Meaning.{accepted, writing, image_after, left_after, laying};
ghost use Rattle.stores.specs.Tape.{records, cut, is_written, is_free, place, tape_image, tape_left, tape_whole, one_place, written_record, tape_written, freed, tape_fits, tape_laid, CutShort};

use crate::store::{IMAGE_SIZE, Store, WriteRefused, give, no_image};
use status::CallError;

// The bytes of a record: its kind byte and an image.
pub const RECORD_SIZE: usize = 1 + IMAGE_SIZE;

const KIND_WRITTEN: u8 = 7;

const KIND_FREE: u8 = 0;

// A store over records of 836 bytes; over memory that is no tape it means zeros and no writes left.
#[derive(Drop)]
pub struct TapeStore<'m> {
    memory: &'m mut [u8],
    // the number of records written, found once; none over memory that is no tape
    next: Option<usize>,
    ghost found: { next ≡ place memory.now },
}

impl<'m> TapeStore<'m> {
    // The store over a memory.
    pub fn new(memory: &'m mut [u8]) -> TapeStore<'m>
        ensures memory { result.memory.now ≡ memory.old }
        ensures lender { result.memory.ghost_name ≡ memory.entry.ghost_name }
        ensures next { result.next ≡ place memory.old }
        ensures cut { CutShort memory.old }
    {
        let next = find_place(memory);
        TapeStore { memory, next }
    }

    // The memory under the store.
    pub fn memory(&self) -> &[u8]
        ensures { result.now ≡ self.now.memory.now }
    {
        self.memory
    }

    // The writes left.
    pub fn writes_left(&self) -> usize
        ensures { result ≡ tape_left self.now.memory.now }
    {
        let count = records_of(self.memory).len();
        self.next.map_or(0, |next| count - next)
    }

    // The image that the store means.
    #[tactic(auto, using(crate::proofs::Tapes::image_of_last))]
    fn image(&self) -> &[u8; IMAGE_SIZE]
        ensures { result.now ≡ tape_image self.now.memory.now }
    {
        let records = records_of(self.memory);
        self.next
            .map_or(no_image(), |next| image_in(&records[next - 1]))
    }

    // The number of the free record that is written next.
    fn free_record(&self) -> Option<usize>
        ensures { MatchOption result (tape_left self.now.memory.now ≡ 0) (λ k. (place self.now.memory.now ≡ Some k) × (k < records self.now.memory.now)) }
    {
        let count = records_of(self.memory).len();
        self.next.filter(|next| *next < count)
    }

    // Writes a new image by a store that is made over a memory and ends.
    pub fn write_to(memory: &mut [u8], new: &[u8]) -> Result<(), WriteRefused>
        ensures value { result ≡ writing (accepted (tape_left memory.old) new.now) }
        ensures after { memory.new ≡ tape_written memory.old new.now }
        ensures image { tape_image memory.new ≡ image_after (tape_image memory.old) (tape_left memory.old) new.now }
        ensures left { tape_left memory.new ≡ left_after (tape_left memory.old) new.now }
    {
        TapeStore::new(memory).write(new)
    }

    // Lays an image in a memory: it is written to the first record, and all others are made free.
    pub fn lay(memory: &mut [u8], image: &[u8]) -> Result<(), CallError>
        ensures value { result ≡ laying (tape_fits image.now memory.old) }
        ensures after { memory.new ≡ tape_laid image.now memory.old }
        ensures image { result ≡ Ok tt → tape_image memory.new ≡ image.now }
        ensures left { result ≡ Ok tt → tape_left memory.new ≡ records memory.old - 1 }
    {
        let image = image.as_array().ok_or(CallError::BadMemory)?;
        let first = memory
            .first_chunk_mut::<RECORD_SIZE>()
            .ok_or(CallError::BadMemory)?;
        put_record(first, image);
        free_behind_first(memory);
        Ok(())
    }
}

// The records of a memory; a shorter tail is ignored.
fn records_of(memory: &[u8]) -> &[[u8; RECORD_SIZE]]
    ensures cut { result.now ≡ cut memory.now }
    ensures count { length result.now ≡ records memory.now }
{
    memory.as_chunks().0
}

// The image in a record.
fn image_in(slot: &[u8; RECORD_SIZE]) -> &[u8; IMAGE_SIZE]
    ensures { result.now ≡ drop 1 slot.now }
{
    slot.last_chunk().unwrap()
}

// The number of records written at the beginning.
fn count_written(records: &[[u8; RECORD_SIZE]]) -> usize
    ensures value { result ≡ prefix_len is_written records.now }
    ensures bound { result ≤ length records.now }
{
    records.iter().take_while(|r| r[0] == KIND_WRITTEN).count()
}

// Whether all records are free.
fn only_free(records: &[[u8; RECORD_SIZE]]) -> bool
    ensures { result ≡ list_all is_free records.now }
{
    records.iter().all(|r| r[0] == KIND_FREE)
}

// The place where a tape is written next, which a write that is cut short does not move.
fn find_place(memory: &[u8]) -> Option<usize>
    ensures value { result ≡ place memory.now }
    ensures cut { CutShort memory.now }
{
    let records = records_of(memory);
    let written = count_written(records);
    (written > 0 && only_free(&records[written..])).then_some(written)
}

// Writes an image to a record. It is marked as written last, so that a write that is cut short leaves it free.
// A slice, and no array: where a store with a ghost field lends its memory as an array, no proof knows what is left in
// it.
fn put_record(slot: &mut [u8], image: &[u8; IMAGE_SIZE])
    requires { length slot.old ≡ record_size }
    ensures { slot.new ≡ written_record image.now }
{
    slot[0] = KIND_FREE;
    fill_free(slot, image);
    slot[0] = KIND_WRITTEN;
}

// Fills the body of a record, which must be free as long as it is not filled.
fn fill_free(slot: &mut [u8], image: &[u8; IMAGE_SIZE])
    requires size { length slot.old ≡ record_size }
    requires free { slice_index slot.old 0 ≡ kind_free }
    ensures { slot.new ≡ kind_free ∷ image.now }
{
    slot[1..].copy_from_slice(image);
}

// Makes the records behind the first free.
fn free_behind_first(memory: &mut [u8])
    requires { record_size ≤ length memory.old }
    ensures { memory.new ≡ freed (records memory.old - 1) memory.old }
{
    // By index: once `chunks_exact_mut` has lent the records, no proof knows what is left in the memory.
    for i in 1..records_of(memory).len() {
        memory[RECORD_SIZE * i] = KIND_FREE;
    }
}

impl Store for TapeStore<'_> {
    ghost image = { λ s. tape_image s.memory.now };

    ghost left = { λ s. tape_left s.memory.now };

    ghost whole = { λ s. tape_whole s.memory.now };

    ghost memory = { λ s. s.memory.now };

    ghost rewritten = { λ s. tape_written s.memory.now };

    ghost lender = { λ s. s.memory.ghost_name };

    ghost meant = { λ s t. one_place (place s.memory.now) (place t.memory.now) s.memory.now t.memory.now refl refl };

    fn read(&self, out: &mut [u8]) -> Result<(), CallError> {
        give(self.image(), out)
    }

    #[tactic(auto, using(crate::proofs::Tapes::place_after, crate::proofs::Tapes::image_after_put, crate::proofs::Tapes::left_after_put, crate::proofs::Tapes::memory_after))]
    fn write(&mut self, new: &[u8]) -> Result<(), WriteRefused> {
        let next = self.free_record().ok_or(WriteRefused)?;
        let image = new.as_array().ok_or(WriteRefused)?;
        let at = RECORD_SIZE * next;
        put_record(&mut self.memory[at..at + RECORD_SIZE], image);
        self.next = Some(next + 1);
        Ok(())
    }
}
