// Words. The one that its first two letters suggest is tried first; only where it does not stand there, the letters are gone through one by one.
ghost use Rattle.std.specs.Prelude.{◌≡◌, [], ◌∷◌, ◌++◌, ◌^◌, ◌≤◌, ◌<◌, length, drop};
ghost use Rattle.forms.specs.Words.{heads, letters};
ghost use Rattle.forms.specs.Form.{space};
ghost use Rattle.forms.specs.Machine.{starts, may, word_lives, word_is, any_named};
ghost use Rattle.tokens.specs.Code.{found_as, known, WordRead};

use crate::{Spelt, numbers, table};
use field::Word;
use forms::Head;

// Do these bytes stand at a place of the text? So many are left, or nothing is compared. (Byte by byte: `starts_with` and `==` are calls here,
// and reading a sheet took a third longer with them.)
pub fn bytes_stand(text: &[u8], from: usize, w: &[u8]) -> bool
    requires { from ≤ length text.now }
    ensures { result ≡ starts w.now (drop from text.now) }
{
    if text.len() - from < w.len() {
        return false;
    }
    for k in 0..w.len() {
        if w[k] != text[from + k] {
            return false;
        }
    }
    true
}

// Does a word with its space stand at a place of the text? (Each with its bytes, for the same reason.)
fn word_stands(text: &[u8], from: usize, h: Head) -> bool
    requires { from ≤ length text.now }
    ensures { result ≡ starts (letters h ++ (space ∷ [])) (drop from text.now) }
{
    match h {
        Head::In => bytes_stand(text, from, b"in "),
        Head::Add => bytes_stand(text, from, b"add "),
        Head::Sub => bytes_stand(text, from, b"sub "),
        Head::Plus => bytes_stand(text, from, b"plus "),
        Head::Times => bytes_stand(text, from, b"times "),
        Head::Mul => bytes_stand(text, from, b"mul "),
        Head::Out => bytes_stand(text, from, b"out "),
        Head::Line => bytes_stand(text, from, b"line "),
        Head::Sq => bytes_stand(text, from, b"sq "),
        Head::Give => bytes_stand(text, from, b"give "),
        Head::Over => bytes_stand(text, from, b"over "),
    }
}

// May a word stand, outermost or inside, where some row has a value or none has?
#[tactic(auto, using(crate::proofs::Wording::may_lem))]
fn may_stand(h: Head, any: bool, outermost: bool) -> bool
    ensures { result ≡ may any outermost h }
{
    let row = table::row(h);
    if row.naming {
        !outermost && any
    } else {
        outermost || row.valued
    }
}

// Do these letters begin a word that may stand?
fn word_lives(spelt: &[u8], any: bool, outermost: bool) -> bool
    ensures { result ≡ word_lives heads any outermost spelt.now }
{
    for h in table::HEADS {
        if table::letters(h).starts_with(spelt) && may_stand(h, any, outermost) {
            return true;
        }
    }
    false
}

// The word that these letters are.
fn find_word(spelt: &[u8], any: bool, outermost: bool) -> Option<Head>
    ensures { found_as result ≡ word_is heads any outermost spelt.now }
{
    for h in table::HEADS {
        if spelt == table::letters(h) && may_stand(h, any, outermost) {
            return Some(h);
        }
    }
    None
}

// A word and its space, letter by letter; or the byte at which it dies.
fn read_slowly(text: &[u8], from: usize, any: bool, outermost: bool) -> Result<Spelt, usize>
    requires { from ≤ length text.now }
    ensures { WordRead text.now any outermost from result }
{
    for i in from..text.len() {
        if text[i] == crate::SPACE {
            let Some(head) = find_word(&text[from..i], any, outermost) else {
                return Err(i);
            };
            return Ok(Spelt { head, to: i + 1 });
        }
        if !word_lives(&text[from..i + 1], any, outermost) {
            return Err(i);
        }
    }
    Err(text.len())
}

// The word that begins with these two letters, if one does. Nothing hangs on it but time.
fn suggested(b: u8, next: u8) -> Head {
    match (b, next) {
        (b'l', _) => Head::Line,
        (b'i', _) => Head::In,
        (b'a', _) => Head::Add,
        (b'm', _) => Head::Mul,
        (b's', b'q') => Head::Sq,
        (b's', _) => Head::Sub,
        (b'p', _) => Head::Plus,
        (b't', _) => Head::Times,
        (b'g', _) => Head::Give,
        (_, b'v') => Head::Over,
        _ => Head::Out,
    }
}

// A word and its space, or the byte at which it dies. A (line J) is left to the letters: a name that stands where it may is read without its
// word.
pub fn read_word(
    text: &&[u8],
    table: &&[Word],
    from: usize,
    outermost: bool,
) -> Result<Spelt, usize>
    requires { (from ≤ length text.now.now) × (length text.now.now < 2 ^ 64) }
    ensures { WordRead text.now.now (any_named (known table.now.now)) outermost from result }
{
    if let [b, next, ..] = &text[from..] {
        let head = suggested(*b, *next);
        if word_stands(*text, from, head) && may_stand(head, false, outermost) {
            let row = table::row(head);
            let to = from + row.length + 1;
            return Ok(Spelt { head, to });
        }
    }
    read_slowly(*text, from, numbers::any_named(*table), outermost)
}
