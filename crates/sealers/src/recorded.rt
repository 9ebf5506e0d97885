// The recorded sealer: both rules are read from a deck of entries.
ghost use Rattle.std.specs.Prelude.{◌≡◌};
ghost use Rattle.std.specs.Iterator.{YieldsFirstBy, item_count};
ghost use Rattle.std.specs.List.{find};
ghost use Rattle.sealers.specs.Deck.{kind_of, entry_read, entry_result, answers, entry_in, first_entry, entries, recorded, recorded_cover, recorded_seal};
ghost use Rattle.sealers.specs.Kept.{recorded_keeps};

use crate::rules::{ANSWER_SIZE, Sealer, check_room, place};
use status::CallError;

#[derive(Clone, Copy, PartialEq, Eq)]
enum Rule {
    Cover,
    Seal,
}

// The kind of an entry: the rule that it belongs to, and how long its message is.
#[derive(Clone, Copy)]
struct Kind {
    rule: Rule,
    len: usize,
}

impl Kind {
    // The kind that a byte says. None ends the reading and is no error: so this is no `TryFrom`.
    fn of(byte: u8) -> Option<Kind>
        ensures { result ≡ kind_of byte }
    {
        let (rule, len) = match byte {
            1 => (Rule::Cover, 256),
            2 => (Rule::Seal, 321),
            3 => (Rule::Seal, 309),
            4 => (Rule::Seal, 256),
            _ => return None,
        };
        Some(Kind { rule, len })
    }
}

// An entry of a deck, and the deck behind it.
#[derive(Clone, Copy)]
struct Entry<'d> {
    rule: Rule,
    message: &'d [u8],
    answer: &'d [u8; ANSWER_SIZE],
    rest: &'d [u8],
}

impl<'d> Entry<'d> {
    // Whether the entry answers for a message under a rule.
    fn answers(&self, rule: Rule, message: &[u8]) -> bool
        ensures { result ≡ answers rule message.now (entry_read self.now) }
    {
        self.rule == rule && self.message == message
    }
}

// The first entry of a deck; none where reading ends.
fn first_entry(deck: &[u8]) -> Option<Entry<'_>>
    ensures { entry_result result ≡ first_entry deck.now }
{
    let (byte, body) = deck.split_first()?;
    entry_of(Kind::of(*byte)?, body)
}

// The entry of a kind that its message begins; none where it is cut short.
fn entry_of(kind: Kind, body: &[u8]) -> Option<Entry<'_>>
    ensures { entry_result result ≡ entry_in kind body.now }
{
    let Kind { rule, len } = kind;
    let (message, behind) = body.split_at_checked(len)?;
    let (answer, rest) = behind.split_first_chunk()?;
    Some(Entry {
        rule,
        message,
        answer,
        rest,
    })
}

// The entries of a deck, up to where reading ends.
#[derive(Clone, Copy)]
struct Entries<'d> {
    deck: &'d [u8],
}

impl<'d> Iterator for Entries<'d> {
    type Item = Entry<'d>;

    ghost next_gives = { YieldsFirstBy entry_read (λ s. entries s.deck.now) };

    ghost remaining = { item_count (λ s. entries s.deck.now) };

    fn next(&mut self) -> Option<Entry<'d>> {
        let entry = first_entry(self.deck)?;
        self.deck = entry.rest;
        Some(entry)
    }
}

// The first entry of a deck that answers for a message under a rule.
fn find<'d>(deck: &'d [u8], rule: Rule, message: &[u8]) -> Option<Entry<'d>>
    ensures { entry_result result ≡ find (answers rule message.now) (entries deck.now) }
{
    Entries { deck }.find(|entry| entry.answers(rule, message))
}

#[derive(Clone, Copy)]
pub struct RecordedSealer<'d> {
    deck: &'d [u8],
}

impl<'d> RecordedSealer<'d> {
    // The sealer that answers from that deck.
    pub fn new(deck: &'d [u8]) -> RecordedSealer<'d>
        ensures { result.deck.now ≡ deck.now }
    {
        RecordedSealer { deck }
    }

    // What the deck answers for a message under a rule.
    fn answer(&self, rule: Rule, message: &[u8]) -> Option<[u8; ANSWER_SIZE]>
        ensures { result ≡ recorded rule self.now.deck.now message.now }
    {
        let entry = find(self.deck, rule, message)?;
        Some(*entry.answer)
    }
}

impl Sealer for RecordedSealer<'_> {
    ghost cover_rule = { λ s. recorded_cover s.deck.now };

    ghost seal_rule = { λ s. recorded_seal s.deck.now };

    ghost kept = { λ s. recorded_keeps s.deck.now };

    fn cover(&mut self, block: &[u8], out: &mut [u8]) -> Result<bool, CallError> {
        check_room(out)?;
        place(self.answer(Rule::Cover, block), out)
    }

    fn seal(&mut self, message: &[u8], out: &mut [u8]) -> Result<bool, CallError> {
        check_room(out)?;
        place(self.answer(Rule::Seal, message), out)
    }
}
