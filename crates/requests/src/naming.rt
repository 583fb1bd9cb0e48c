// The names of entries, of what they are lent, and of stages.
ghost use Rattle.std.specs.Prelude.{◌≡◌, ◌<◌};
ghost use Rattle.text.specs.Code.{Word};
ghost use Rattle.requests.specs.Words.{ends};
ghost use Rattle.requests.specs.Names.{place, entry_name, row, field_name, has, stage_name, entry_named, stage_named};

use circuit::{Check, Round};
use protocol::Stage;
use text::Span;

#[derive(Clone, Copy, PartialEq, Eq)]
pub enum Entry {
    Open,
    Send,
    Receive,
    Joint,
    Show,
    Read,
    Write,
    Score,
}

// What an entry is lent, in the order of the entry's row. Preprocessing is one party's or that of all; words are the coefficients or the words
// received; nonces are a party's one or those of all; out is a party's list or the transcript. A sheet's text stands for the circuit where it is read,
// and what is written of a sheet or of its circuit is out.
#[derive(Clone, Copy, PartialEq, Eq)]
pub enum Field {
    Parties,
    Party,
    Circuit,
    Prep,
    Inputs,
    Scratch,
    Position,
    Words,
    Nonces,
    Out,
    Outputs,
}

impl Field {
    // The place of its name in the row.
    pub fn place(self) -> usize
        ensures same { result ≡ place self }
        ensures below { result < 11 }
    {
        self as usize
    }
}

const ENTRIES: [Entry; 8] = [
    Entry::Open,
    Entry::Send,
    Entry::Receive,
    Entry::Joint,
    Entry::Show,
    Entry::Read,
    Entry::Write,
    Entry::Score,
];

pub const FIELDS: [Field; 11] = [
    Field::Parties,
    Field::Party,
    Field::Circuit,
    Field::Prep,
    Field::Inputs,
    Field::Scratch,
    Field::Position,
    Field::Words,
    Field::Nonces,
    Field::Out,
    Field::Outputs,
];

const STAGES: [Stage; 14] = [
    Stage::Send(Round::Own),
    Stage::Receive(Round::Own),
    Stage::Send(Round::Open),
    Stage::Receive(Round::Open),
    Stage::Send(Round::Commit(Check::First)),
    Stage::Receive(Round::Commit(Check::First)),
    Stage::Send(Round::Reveal(Check::First)),
    Stage::Receive(Round::Reveal(Check::First)),
    Stage::Send(Round::Commit(Check::Second)),
    Stage::Receive(Round::Commit(Check::Second)),
    Stage::Send(Round::Reveal(Check::Second)),
    Stage::Receive(Round::Reveal(Check::Second)),
    Stage::Finished,
    Stage::Aborted,
];

#[tactic(auto, unfolding(crate::specs::Names::bytes, crate::specs::Names::entry_name))]
fn entry_name(entry: Entry) -> &'static [u8]
    ensures { result.now ≡ entry_name entry }
{
    match entry {
        Entry::Open => b"open",
        Entry::Send => b"send",
        Entry::Receive => b"receive",
        Entry::Joint => b"joint",
        Entry::Show => b"show",
        Entry::Read => b"read",
        Entry::Write => b"write",
        Entry::Score => b"score",
    }
}

// The names of an entry's fields; None is an entry of another name, whose row is that of joint. A row has - where the entry lacks the field.
#[tactic(auto, unfolding(crate::specs::Names::bytes, crate::specs::Names::row))]
fn row(entry: Option<Entry>) -> &'static [u8]
    ensures { result.now ≡ row entry }
{
    match entry {
        Some(Entry::Open) => b"parties party circuit prep inputs scratch - - - - -",
        Some(Entry::Send) => {
            b"parties party circuit prep inputs scratch position coefficients nonce out -"
        }
        Some(Entry::Receive) => b"parties party circuit prep inputs scratch position heard - - -",
        Some(Entry::Read) => b"parties - text - - - - - - circuit -",
        Some(Entry::Write) => b"parties - circuit - - - - - - text -",
        Some(Entry::Score) => {
            b"parties - text preps inputs scratch - coefficients nonces transcript outputs"
        }
        Some(Entry::Joint | Entry::Show) | None => {
            b"parties - circuit preps inputs scratch - coefficients nonces transcript outputs"
        }
    }
}

// The word of a number, counted from 0.
#[tactic(auto, using(crate::proofs::Lines::next_word), unfolding(crate::specs::Words::ends))]
pub fn nth_word(words: &[u8], k: usize) -> Span
    ensures { Word words.now (ends k words.now) result }
{
    let mut found = text::word_from(words, 0);
    for i in 0..k {
        found = text::word_from(words, found.end);
    }
    found
}

#[tactic(auto, using(crate::proofs::Lines::nth_text), unfolding(crate::specs::Names::field_name))]
pub fn field_name(entry: Option<Entry>, field: Field) -> &'static [u8]
    ensures { result.now ≡ field_name entry field }
{
    let names = row(entry);
    let name = nth_word(names, field.place());
    &names[name.start..name.end]
}

// Is an entry lent a field?
#[tactic(auto, unfolding(crate::specs::Names::bytes, crate::specs::Names::has))]
pub fn has(entry: Option<Entry>, field: Field) -> bool
    ensures { result ≡ has entry field }
{
    field_name(entry, field) != b"-".as_slice()
}

// A stage's name is that of its half, and then its round's.
#[tactic(auto, unfolding(crate::specs::Names::bytes, crate::specs::Names::round_name, crate::specs::Names::stage_name))]
pub fn stage_name(stage: Stage) -> &'static str
    ensures { result.now ≡ stage_name stage }
{
    match stage {
        Stage::Send(Round::Own) => "send-own",
        Stage::Send(Round::Open) => "send-show",
        Stage::Send(Round::Commit(Check::First)) => "send-seal",
        Stage::Send(Round::Reveal(Check::First)) => "send-reveal",
        Stage::Send(Round::Commit(Check::Second)) => "send-output-seal",
        Stage::Send(Round::Reveal(Check::Second)) => "send-output-reveal",
        Stage::Receive(Round::Own) => "receive-own",
        Stage::Receive(Round::Open) => "receive-show",
        Stage::Receive(Round::Commit(Check::First)) => "receive-seal",
        Stage::Receive(Round::Reveal(Check::First)) => "receive-reveal",
        Stage::Receive(Round::Commit(Check::Second)) => "receive-output-seal",
        Stage::Receive(Round::Reveal(Check::Second)) => "receive-output-reveal",
        Stage::Finished => "finished",
        Stage::Aborted => "aborted",
    }
}

// The entry, and the stage, whose name a word is.
pub fn entry_named(word: &[u8]) -> Option<Entry>
    ensures { result ≡ entry_named word.now }
{
    ENTRIES
        .iter()
        .find(|entry| word == entry_name(**entry))
        .copied()
}

pub fn stage_named(word: &[u8]) -> Option<Stage>
    ensures { result ≡ stage_named word.now }
{
    STAGES
        .iter()
        .find(|stage| word == stage_name(**stage).as_bytes())
        .copied()
}
