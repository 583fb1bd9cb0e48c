// The leaves of reading a sheet: the table of words, a byte, a word, a number or a name.
#![tactic(auto)]

pub mod numbers;
pub mod table;
pub mod words;

ghost use Rattle.std.specs.Prelude.{◌≡◌};
ghost use Rattle.tokens.specs.Code.{is_at};

use circuit::Role;
use field::Word;
use forms::{Head, Sort};

pub const OPENING: u8 = b'(';

pub const CLOSING: u8 = b')';

pub const SPACE: u8 = b' ';

pub const FEED: u8 = b'\n';

// What the table says of a word: how long it is, what follows it, the kind of its gate, whether it names a row, whether its gate has a value,
// and what the gate's numbers are for.
#[derive(Clone, Copy)]
pub struct Row {
    pub length: usize,
    pub sort: Sort,
    pub kind: Word,
    pub naming: bool,
    pub valued: bool,
    pub first: Role,
    pub second: Role,
    pub constant: Role,
}

// A word, and where the text goes on behind its space.
#[derive(Clone, Copy, PartialEq, Eq)]
pub struct Spelt {
    pub head: Head,
    pub to: usize,
}

// A number, and where its bracket is.
#[derive(Clone, Copy, PartialEq, Eq)]
pub struct Number {
    pub value: Word,
    pub to: usize,
}

// The gate of a row that is named, and where the text goes on behind the name.
#[derive(Clone, Copy, PartialEq, Eq)]
pub struct Name {
    pub wire: Word,
    pub to: usize,
}

// Does a byte stand at a place of a text?
#[tactic(auto, using(std::proofs::lemmas::Bool::Decides::nat_tests), unfolding(crate::specs::Code::is_at))]
pub fn expect(text: &[u8], at: usize, b: u8) -> bool
    ensures { result ≡ is_at text.now at b }
{
    at < text.len() && text[at] == b
}
