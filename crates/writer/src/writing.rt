// Bytes, numbers, forms and rows are put over a text from a place on. Each answers where they end.
ghost use Rattle.std.specs.Prelude.{◌≡◌, [], ◌∷◌, ◌++◌, ◌+◌, ◌*◌, ◌≤◌, ◌<◌, length};
ghost use Rattle.circuit.specs.Gate.{gate_size};
ghost use Rattle.forms.specs.Form.{leaf, one, two, scaled, space, begin, print, print_rows, decimal};
ghost use Rattle.forms.specs.Entry.{name, rows_up_to};
ghost use Rattle.writer.specs.Code.{Put, form_in, row_text, row_room};

use crate::{Form, lengths, rows};
use field::Word;
use forms::Head;

const NAUGHT: u8 = b'0';

#[tactic(auto, using(crate::proofs::Putting::over_byte))]
fn put_byte(text: &mut [u8], at: usize, b: u8) -> usize
    requires { at < length text.old }
    ensures { Put text.old text.new at result (b ∷ []) }
{
    text[at] = b;
    at + 1
}

pub fn put_bytes(text: &mut [u8], at: usize, bytes: &[u8]) -> usize
    requires { at + length bytes.now ≤ length text.old }
    ensures { Put text.old text.new at result bytes.now }
{
    let to = at + bytes.len();
    text[at..to].copy_from_slice(bytes);
    to
}

// The bytes of a bracket, a word and a space. (All of them here: with the table's letters between two bytes writing a sheet takes longer.)
#[inline(always)]
#[tactic(auto, unfolding(forms::specs::Form::begin))]
fn begin(h: Head) -> &'static [u8]
    ensures { result.now ≡ begin h }
{
    match h {
        Head::In => b"(in ",
        Head::Add => b"(add ",
        Head::Sub => b"(sub ",
        Head::Plus => b"(plus ",
        Head::Times => b"(times ",
        Head::Mul => b"(mul ",
        Head::Out => b"(out ",
        Head::Line => b"(line ",
        Head::Sq => b"(sq ",
        Head::Give => b"(give ",
        Head::Over => b"(over ",
    }
}

// They are put byte by byte: a copy of so few bytes is a call here, and writing a sheet took up to two fifths longer with it.
fn put_begin(text: &mut [u8], at: usize, h: Head) -> usize
    requires { at + length (begin h) ≤ length text.old }
    ensures { Put text.old text.new at result (begin h) }
{
    let mut end = at;
    for b in begin(h) {
        end = put_byte(text, end, *b);
    }
    end
}

// The digits from the last to the first.
fn put_number(text: &mut [u8], at: usize, n: usize) -> usize
    requires { at + length (decimal n) ≤ length text.old }
    ensures { Put text.old text.new at result (decimal n) }
{
    let end = at + lengths::places(n);
    let mut i = end - 1;
    let mut rest = n;
    while lengths::TEN <= rest {
        text[i] = NAUGHT + ((rest % lengths::TEN) as u8);
        rest /= lengths::TEN;
        i -= 1;
    }
    text[i] = NAUGHT + (rest as u8);
    end
}

// A form of a word and a number.
fn put_leaf(text: &mut [u8], at: usize, h: Head, n: usize) -> usize
    requires { at + length (print (leaf h n)) ≤ length text.old }
    ensures { Put text.old text.new at result (print (leaf h n)) }
{
    let number = put_begin(text, at, h);
    let end = put_number(text, number, n);
    put_byte(text, end, tokens::CLOSING)
}

// A form of a word and a name.
fn put_one(text: &mut [u8], at: usize, h: Head, x: usize) -> usize
    requires { at + length (print (one h (name x))) ≤ length text.old }
    ensures { Put text.old text.new at result (print (one h (name x))) }
{
    let operand = put_begin(text, at, h);
    let end = put_leaf(text, operand, Head::Line, x);
    put_byte(text, end, tokens::CLOSING)
}

// A bracket, a word, a name and a space.
fn put_named(text: &mut [u8], at: usize, h: Head, x: usize) -> usize
    requires { at + length (begin h ++ print (name x) ++ (space ∷ [])) ≤ length text.old }
    ensures { Put text.old text.new at result (begin h ++ print (name x) ++ (space ∷ [])) }
{
    let operand = put_begin(text, at, h);
    let end = put_leaf(text, operand, Head::Line, x);
    put_byte(text, end, tokens::SPACE)
}

// A form of a word and two names.
fn put_two(text: &mut [u8], at: usize, h: Head, x: usize, y: usize) -> usize
    requires { at + length (print (two h (name x) (name y))) ≤ length text.old }
    ensures { Put text.old text.new at result (print (two h (name x) (name y))) }
{
    let operand = put_named(text, at, h, x);
    let end = put_leaf(text, operand, Head::Line, y);
    put_byte(text, end, tokens::CLOSING)
}

// A form of a word, a name and a number.
fn put_scaled(text: &mut [u8], at: usize, h: Head, x: usize, n: usize) -> usize
    requires { at + length (print (scaled h (name x) n)) ≤ length text.old }
    ensures { Put text.old text.new at result (print (scaled h (name x) n)) }
{
    let number = put_named(text, at, h, x);
    let end = put_number(text, number, n);
    put_byte(text, end, tokens::CLOSING)
}

#[tactic(auto, unfolding(crate::specs::Code::form_in))]
fn put_form(text: &mut [u8], at: usize, f: Form) -> usize
    requires { at + length (print (form_in f)) ≤ length text.old }
    ensures { Put text.old text.new at result (print (form_in f)) }
{
    match f {
        Form::Leaf { head, number } => put_leaf(text, at, head, number),
        Form::One { head, first } => put_one(text, at, head, first),
        Form::Two {
            head,
            first,
            second,
        } => put_two(text, at, head, first, second),
        Form::Scaled {
            head,
            first,
            number,
        } => put_scaled(text, at, head, first, number),
    }
}

// A form and its line feed.
fn put_row(text: &mut [u8], at: usize, f: Form) -> usize
    requires { at + length (row_text (form_in f)) ≤ length text.old }
    ensures { Put text.old text.new at result (row_text (form_in f)) }
{
    let end = put_form(text, at, f);
    put_byte(text, end, tokens::FEED)
}

// The first count gates as rows.
pub fn put_rows(text: &mut [u8], c: &[Word], count: usize) -> usize
    requires { (gate_size * count ≤ length c.now) × (row_room * count ≤ length text.old) }
    ensures { Put text.old text.new 0 result (print_rows (rows_up_to c.now count)) × (result ≤ row_room * count) }
{
    let mut at = 0;
    for j in 0..count {
        at = put_row(text, at, rows::form_at(c, j));
    }
    at
}
