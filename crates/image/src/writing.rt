// Writing the fields of an image to its bytes.
ghost use Rattle.std.specs.Prelude.{◌≡◌, ◌^◌, ◌<◌, [], length, Ok, OnOk};
ghost use Rattle.stores.specs.Sizes.{image_size};
ghost use Rattle.image.specs.Places.{counters_kind_at, money_kind_at, pin_kind_at, rows_kind_at, last_kind_at, key_kind_at, count_width, sum_width, amount_width, pin_width, answer_width, ids};
ghost use Rattle.image.specs.Layout.{meaning, image_bytes, mark_counter, mark_amount, last_bytes, counters_record, money_record, pin_record, rows_record, last_record, key_record};
ghost use Rattle.image.specs.Filling.{laid};
ghost use Rattle.image.specs.Fitting.{SidesFit};
ghost use Rattle.image.specs.Sound.{ReadBack};
ghost use Rattle.image.specs.Writing.{amount_stored, fitting, write_value, write_after};

use crate::fields::Image;
use crate::places::{AMOUNT_SIZE, ANSWER_SIZE, Kind};
use crate::written::Written;
use octets::write_be;
use status::CallError;

// The bytes of an amount, if it fits them. Inlined, as what is written is.
#[inline(always)]
fn amount_bytes(amount: u64) -> Result<[u8; AMOUNT_SIZE], CallError>
    ensures value { result ≡ amount_stored amount }
    ensures fits { OnOk result (amount < 256 ^ amount_width) }
{
    let mut bytes = [0; AMOUNT_SIZE];
    write_be(&mut bytes, amount).map_err(|_| CallError::BadField)?;
    Ok(bytes)
}

// The bytes of the last answer: zeros where there is none.
#[tactic(auto, unfolding(crate::specs::Layout::no_answer))]
fn answer_bytes(last: &Option<[u8; ANSWER_SIZE]>) -> &[u8; ANSWER_SIZE]
    ensures { result.now ≡ last_bytes last.now }
{
    match last {
        Some(answer) => answer,
        None => &[0; ANSWER_SIZE],
    }
}

impl Image {
    // Writes the image to the beginning of `out`.
    pub fn write(&self, out: &mut [u8]) -> Result<(), CallError>
        ensures value { result ≡ write_value (meaning self.now) out.old }
        ensures after { out.new ≡ write_after (meaning self.now) out.old }
        ensures back { result ≡ Ok tt → ReadBack (meaning self.now) }
    {
        let place = out.first_chunk_mut().ok_or(CallError::SmallBuffer)?;
        let mut written = Written::new();
        self.put_records(&mut written)?;
        *place = *written.whole();
        Ok(())
    }

    // Writes the six records, if the amounts fit.
    fn put_records(&self, out: &mut Written) -> Result<(), CallError>
        requires { out.old ≡ [] }
        ensures value { result ≡ fitting (meaning self.now) }
        ensures after { OnOk result (out.new ≡ image_bytes (meaning self.now)) }
        ensures end { OnOk result (length out.new ≡ image_size) }
        ensures back { OnOk result (ReadBack (meaning self.now)) }
    {
        self.put_counters(out);
        self.put_money(out)?;
        self.put_pin(out);
        self.put_rows(out);
        self.put_last(out);
        self.put_key(out);
        Ok(())
    }

    // Writes record 01. Each record says where it begins and ends, so that there is room for it.
    fn put_counters(&self, out: &mut Written)
        requires { length out.old ≡ counters_kind_at }
        ensures after { out.new ≡ laid out.old (counters_record (meaning self.now)) }
        ensures end { length out.new ≡ money_kind_at }
        ensures counters { SidesFit count_width 1 (meaning self.now).counters }
        ensures sums { SidesFit sum_width 1 (meaning self.now).sums }
    {
        out.put(&[Kind::Counters as u8]);
        out.put_tally(&self.counters);
        out.put_tally(&self.sums);
    }

    // Writes record 02, if the amounts fit.
    fn put_money(&self, out: &mut Written) -> Result<(), CallError>
        requires { length out.old ≡ money_kind_at }
        ensures value { result ≡ fitting (meaning self.now) }
        ensures after { OnOk result (out.new ≡ laid out.old (money_record (meaning self.now))) }
        ensures end { OnOk result (length out.new ≡ pin_kind_at) }
        ensures unaudited { OnOk result (self.now.unaudited < 256 ^ amount_width) }
        ensures limit { OnOk result (self.now.limit < 256 ^ amount_width) }
        ensures counter { mark_counter self.now.mark < 256 ^ count_width }
        ensures amount { OnOk result (mark_amount self.now.mark < 256 ^ amount_width) }
    {
        let mark = self.mark.unwrap_or_default();
        out.put(&[Kind::Money as u8]);
        out.put(&amount_bytes(self.unaudited)?);
        out.put(&amount_bytes(self.limit)?);
        out.put(&[u8::from(self.mark.is_some())]);
        out.put(&mark.counter.to_be_bytes());
        out.put(&amount_bytes(mark.amount)?);
        Ok(())
    }

    // Writes record 03.
    fn put_pin(&self, out: &mut Written)
        requires { length out.old ≡ pin_kind_at }
        ensures after { out.new ≡ laid out.old (pin_record (meaning self.now)) }
        ensures end { length out.new ≡ rows_kind_at }
        ensures pin { length self.now.pin ≡ pin_width }
        ensures tries { self.now.tries < 256 }
    {
        out.put(&[Kind::Pin as u8]);
        out.put(&self.pin);
        out.put(&self.tries.to_be_bytes());
    }

    // Writes record 04.
    fn put_rows(&self, out: &mut Written)
        requires { length out.old ≡ rows_kind_at }
        ensures after { out.new ≡ laid out.old (rows_record (meaning self.now)) }
        ensures end { length out.new ≡ last_kind_at }
        ensures rows { SidesFit sum_width ids (meaning self.now).rows }
    {
        out.put(&[Kind::Rows as u8]);
        out.put_tally(&self.rows);
    }

    // Writes record 05, with zeros where there is no answer.
    fn put_last(&self, out: &mut Written)
        requires { length out.old ≡ last_kind_at }
        ensures after { out.new ≡ laid out.old (last_record (meaning self.now)) }
        ensures end { length out.new ≡ key_kind_at }
        ensures size { length (last_bytes self.now.last) ≡ answer_width }
    {
        out.put(&[Kind::Last as u8]);
        out.put(&[u8::from(self.last.is_some())]);
        out.put(answer_bytes(&self.last));
    }

    // Writes record 06.
    fn put_key(&self, out: &mut Written)
        requires { length out.old ≡ key_kind_at }
        ensures after { out.new ≡ laid out.old (key_record (meaning self.now)) }
        ensures end { length out.new ≡ image_size }
        ensures key { self.now.key_version < 256 ^ count_width }
    {
        out.put(&[Kind::Key as u8]);
        out.put(&self.key_version.to_be_bytes());
    }
}
