// Printing numbers, lists and the rounds of a joint run. An error is the writer's, and leaves what is lent as it was.
#![tactic(auto)]

ghost use Rattle.std.specs.Prelude.{◌+◌, ◌≤◌, length, IfOk};

use circuit::{Check, Kind, Round, counting, rounds, shapes};
use field::Word;
use gates::reading;
use std::io;
use std::io::Write;

// No accepted circuit has more gates.
const MOST_GATES: usize = gates::asking::MOST_GATES;

// The most bytes that are written at once.
const ROOM: usize = 4096;

// The most bytes of a number and the space before it.
const WIDTH: usize = 11;

// Puts a space and a number's digits at a place of a text. Where they end. `write!` of them takes more than twice the time.
fn put_number(text: &mut [u8], at: usize, n: Word) -> usize
    requires { at + 11 ≤ length text.old }
    ensures { result ≤ length text.new }
{
    text[at] = b' ';
    let end = at + 2 + n.checked_ilog10().unwrap_or(0) as usize;
    let mut rest = n;
    for i in (at + 1..end).rev() {
        text[i] = b'0' + (rest % 10) as u8;
        rest /= 10;
    }
    end
}

// A list's numbers, each after a space, and the end of the line, in few writes.
pub fn print_words<W: Write>(to: &mut W, words: &[Word]) -> io::Result<()> {
    let mut text = [0; ROOM];
    let mut end = 0;
    for n in words {
        if ROOM - end < WIDTH {
            to.write_all(&text[..end])?;
            end = 0;
        }
        end = put_number(&mut text, end, *n);
    }
    to.write_all(&text[..end])?;
    to.write_all(b"\n")
}

// A list on a line that begins with its name.
pub fn print_list<W: Write>(to: &mut W, name: &[u8], words: &[Word]) -> io::Result<()> {
    to.write_all(name)?;
    print_words(to, words)
}

// What is still to print of a joint run of so many parties: its rounds, and their words.
#[derive(Drop)]
struct Rest<'a> {
    parties: u32,
    rounds: usize,
    words: &'a [Word],
}

impl Rest<'_> {
    // A round of a gate before which that many entries are unchecked, where the gate has it.
    fn print_round<W: Write>(
        &mut self,
        to: &mut W,
        name: &[u8],
        kind: Kind,
        unchecked: usize,
        r: Round,
    ) -> io::Result<()> {
        let shape = shapes::shape_of(kind);
        let count = (self.parties as usize) * rounds::words_in(shape, r);
        if self.rounds == 0
            || self.words.len() < count
            || !rounds::has_round(shape.class, unchecked, r)
        {
            return Ok(());
        }
        let (words, rest) = self.words.split_at(count);
        print_list(to, name, words)?;
        self.words = rest;
        self.rounds -= 1;
        Ok(())
    }

    // A gate's own round, by the word for its kind. A local kind has none, nor has an output.
    fn print_own<W: Write>(&mut self, to: &mut W, kind: Kind) -> io::Result<()> {
        match kind {
            Kind::In => self.print_round(to, b"in", kind, 0, Round::Own),
            Kind::Mul => self.print_round(to, b"mul", kind, 0, Round::Own),
            Kind::Sq => self.print_round(to, b"sq", kind, 0, Round::Own),
            _ => Ok(()),
        }
    }

    // A commitment and its reveal, where the gate has that check.
    fn print_check<W: Write>(
        &mut self,
        to: &mut W,
        kind: Kind,
        unchecked: usize,
        check: Check,
    ) -> io::Result<()> {
        self.print_round(to, b"seal", kind, unchecked, Round::Commit(check))?;
        self.print_round(to, b"reveal", kind, unchecked, Round::Reveal(check))
    }

    // The rounds of a gate before which that many entries are unchecked.
    fn print_gate<W: Write>(&mut self, to: &mut W, kind: Kind, unchecked: usize) -> io::Result<()> {
        self.print_own(to, kind)?;
        self.print_check(to, kind, unchecked, Check::First)?;
        self.print_round(to, b"show", kind, unchecked, Round::Open)?;
        self.print_check(to, kind, unchecked, Check::Second)
    }
}

// Prints the rounds made, in their order: the word for each, and the words of all parties. How many outputs the circuit has.
pub fn print_rounds<W: Write>(
    to: &mut W,
    parties: u32,
    c: &[Word],
    rounds: usize,
    transcript: &[Word],
) -> io::Result<usize>
    ensures { IfOk result (λ n. n ≤ length c.now) }
{
    let mut rest = Rest {
        parties,
        rounds,
        words: transcript,
    };
    let mut unchecked = 0;
    let mut outs = 0;
    for j in 0..(c.len() / reading::GATE_SIZE).min(MOST_GATES) {
        let kind = reading::kind_at(c, j);
        rest.print_gate(to, kind, unchecked)?;
        let shape = shapes::shape_of(kind);
        unchecked = counting::unchecked_after(shape, unchecked);
        outs += counting::one_if(shapes::is_out(shape.class));
    }
    Ok(outs)
}
