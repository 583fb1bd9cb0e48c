// Numbers and names. What is well formed is found in one pass over the digits; only where that fails, the byte is looked for at which it dies.
ghost use Rattle.std.specs.Prelude.{◌≡◌, true, ◌&&◌, ◌%◌, ◌-◌, ◌≤◌, eqb, leb, length, IfSome, SomeIff};
ghost use Rattle.circuit.specs.Accept.{most_gates};
ghost use Rattle.field.specs.Words.{largest};
ghost use Rattle.forms.specs.declared.Head.TheVariants.{In, Line};
ghost use Rattle.forms.specs.Form.{named, naught};
ghost use Rattle.forms.specs.Machine.{is_digit, begins, name_lives, any_named};
ghost use Rattle.tokens.specs.Code.{known, lives_as, fits_as, NumberRead, DigitsAre, leading, Behind, NameIs};

use crate::{Name, Number, words};
use field::Word;

const TEN: usize = 10;

// The value of a digit.
#[tactic(auto, using(std::proofs::lemmas::Bool::Decides::nat_tests), unfolding(forms::specs::Machine::is_digit))]
fn digit(b: u8) -> Option<usize>
    ensures { SomeIff result (is_digit b ≡ true) (b - naught) }
{
    match b {
        b'0'..=b'9' => Some(usize::from(b - b'0')),
        _ => None,
    }
}

// Is a number no larger than a word?
fn is_word(v: usize) -> bool
    ensures { result ≡ leb v largest }
{
    v <= field::index(field::LARGEST)
}

// Do the digits of v begin those of j?
fn begins_with(v: usize, j: usize) -> bool
    ensures { result ≡ begins j v j }
{
    let mut k = j;
    while v != k {
        if k < TEN {
            return false;
        }
        k /= TEN;
    }
    true
}

// Has row j, of this entry, a value, and do the digits of v begin those of j?
#[tactic(auto, using(std::proofs::lemmas::Bool::Decides::nat_tests))]
fn row_lives(entry: Word, v: usize, j: usize) -> bool
    ensures { result ≡ (eqb (entry % 2) 1 && begins j v j) }
{
    entry % 2 == 1 && begins_with(v, j)
}

// Do the digits of v begin those of a row that has a value?
fn name_lives(table: &[Word], v: usize) -> bool
    ensures { result ≡ name_lives (known table.now) 0 v }
{
    for j in 0..table.len() {
        if row_lives(table[j], v, j) {
            return true;
        }
    }
    false
}

// Has any row a value?
pub fn any_named(table: &[Word]) -> bool
    ensures { result ≡ any_named (known table.now) }
{
    table.iter().any(|entry| *entry % 2 == 1)
}

// Is row v there, with a value?
#[tactic(auto, using(crate::proofs::Tables::named_at, std::proofs::lemmas::Bool::Decides::nat_tests))]
fn is_named(table: &[Word], v: usize) -> bool
    ensures { result ≡ named (known table.now) v }
{
    v < table.len() && table[v] % 2 == 1
}

// May digits of this value stand, as a name or as a number?
#[tactic(auto, unfolding(crate::specs::Code::lives_as))]
fn lives(table: &[Word], naming: bool, v: usize) -> bool
    ensures { result ≡ lives_as table.now naming v }
{
    if naming {
        name_lives(table, v)
    } else {
        is_word(v)
    }
}

// May they end? (A function of its own: it has but the numbers in common with the one above, and a closure for the names would be no plainer.)
#[tactic(auto, unfolding(crate::specs::Code::fits_as))]
fn fits(table: &[Word], naming: bool, v: usize) -> bool
    ensures { result ≡ fits_as table.now naming v }
{
    if naming {
        is_named(table, v)
    } else {
        is_word(v)
    }
}

// Digits without a leading zero as far as a bracket, if that is what stands here, and their value is no larger than a word.
#[inline(always)]
fn read_digits(text: &[u8], from: usize) -> Option<Number>
    ensures { IfSome result (λ n. DigitsAre text.now from n.value n.to) }
{
    let mut so_far = digit(*text.get(from)?)?;
    for i in from + 1..text.len() {
        let b = text[i];
        if b == crate::CLOSING {
            return Some(Number {
                value: so_far as Word,
                to: i,
            });
        }
        let d = digit(b)?;
        if so_far == 0 {
            return None;
        }
        let larger = so_far * TEN + d;
        if !is_word(larger) {
            return None;
        }
        so_far = larger;
    }
    None
}

// Digit by digit: each is asked whether it may stand. The first is read before the loop; no digit follows a 0.
fn read_slowly(text: &[u8], table: &[Word], from: usize, naming: bool) -> Result<Number, usize>
    requires { (from ≤ length text.now) × (length table.now ≤ most_gates) }
    ensures { NumberRead text.now table.now naming from result }
{
    if text.len() <= from {
        return Err(from);
    }
    let Some(mut value) = digit(text[from]) else {
        return Err(from);
    };
    if !lives(table, naming, value) {
        return Err(from);
    }
    for i in from + 1..text.len() {
        let b = text[i];
        if b == crate::CLOSING {
            if !fits(table, naming, value) {
                return Err(i);
            }
            return Ok(Number {
                value: value as Word,
                to: i,
            });
        }
        let Some(d) = digit(b) else {
            return Err(i);
        };
        if value == 0 {
            return Err(i);
        }
        let larger = value * TEN + d;
        if !lives(table, naming, larger) {
            return Err(i);
        }
        value = larger;
    }
    Err(text.len())
}

// A number or a name and where its bracket is, or the byte at which it dies.
#[inline(always)]
pub fn read_number(text: &[u8], table: &[Word], from: usize, naming: bool) -> Result<Number, usize>
    requires { (from ≤ length text.now) × (length table.now ≤ most_gates) }
    ensures { NumberRead text.now table.now naming from result }
{
    if let Some(number) = read_digits(text, from)
        && fits(table, naming, field::index(number.value))
    {
        return Ok(number);
    }
    read_slowly(text, table, from, naming)
}

// Digits behind these bytes, as far as a bracket, if that is what stands here.
fn read_behind(text: &[u8], from: usize, w: &[u8]) -> Option<Number>
    requires { from ≤ length text.now }
    ensures { IfSome result (λ n. Behind text.now w.now from n.value n.to) }
{
    if !words::bytes_stand(text, from, w) {
        return None;
    }
    read_digits(text, from + w.len())
}

// The name of a row that has a value, if that is what stands here: its gate, and where the text goes on.
pub fn read_name(text: &[u8], table: &[Word], from: usize) -> Option<Name>
    requires { from ≤ length text.now }
    ensures { IfSome result (λ n. NameIs text.now table.now from n.wire n.to) }
{
    let number = read_behind(text, from, b"(line ")?;
    let v = field::index(number.value);
    if !is_named(table, v) {
        return None;
    }
    Some(Name {
        wire: table[v] / 2,
        to: number.to + 1,
    })
}

// The number of an input, if that is what stands here, and where its bracket is.
pub fn read_input(text: &[u8], from: usize) -> Option<Number>
    requires { from ≤ length text.now }
    ensures { IfSome result (λ n. Behind text.now (leading In) from n.value n.to) }
{
    read_behind(text, from, b"(in ")
}
