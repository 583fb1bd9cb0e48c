// Words and numbers in a line of text.
#![tactic(auto)]

ghost use Rattle.std.specs.Prelude.{◌+◌, ◌<◌, ◌≤◌, ◌≡◌, ltb, length, take, drop, IsSome};
ghost use Rattle.text.specs.Text.{is_space, run, numbers_in, read_into, whole};
ghost use Rattle.text.specs.Code.{Word, begun_of, numbers_told, digit_told};

// Where a word starts and ends in its line; it is Copy, as a Range is not. Where there is no word, both are the line's end.
#[derive(Clone, Copy)]
pub struct Span {
    pub start: usize,
    pub end: usize,
}

// The first thing that is wrong with a text of numbers.
#[derive(Clone, Copy, PartialEq, Eq)]
pub enum Fault {
    Unlike,
    TooLarge,
    TooMany,
}

#[tactic(auto, unfolding(crate::specs::Text::is_space))]
fn is_space(b: u8) -> bool
    ensures { result ≡ is_space b }
{
    matches!(b, b' ' | b'\t' | b'\r')
}

// Where a run of spaces, or of other bytes, ends.
fn run_end(line: &[u8], from: usize, spaces: bool) -> usize
    requires { from ≤ length line.now }
    ensures { (result ≡ from + run spaces (drop from line.now)) × (result ≤ length line.now) }
{
    let rest = line[from..].iter();
    from + rest.take_while(|b| is_space(**b) == spaces).count()
}

// The first word at or after a place of a line.
pub fn word_from(line: &[u8], from: usize) -> Span
    requires { from ≤ length line.now }
    ensures { Word line.now from result }
{
    let start = run_end(line, from, true);
    let end = run_end(line, start, false);
    Span { start, end }
}

// The number that is begun, if one is, with one more digit. Another may begin only where there is room for it.
#[tactic(auto, unfolding(crate::specs::Text::is_digit, crate::specs::Text::digit, crate::specs::Code::digit_told))]
fn with_digit(begun: Option<u32>, b: u8, count: usize, room: usize) -> Result<u32, Fault>
    ensures { result ≡ digit_told begun b (ltb count room) }
{
    if !b.is_ascii_digit() {
        return Err(Fault::Unlike);
    }
    if begun.is_none() && room <= count {
        return Err(Fault::TooMany);
    }
    let larger = u64::from(begun.unwrap_or(0)) * 10 + u64::from(b - b'0');
    u32::try_from(larger).map_err(|_| Fault::TooLarge)
}

// Puts the number that is begun, if one is, behind those that are whole. How many are whole then.
#[tactic(auto, using(std::proofs::lemmas::List::take_more_set), unfolding(crate::specs::Text::whole))]
fn put(list: &mut [u32], count: usize, begun: Option<u32>) -> usize
    requires { (count ≤ length list.old) × (IsSome begun → count < length list.old) }
    ensures list_after { take result list.new ≡ whole (begun_of (take count list.old) begun) }
    ensures lower_bound { (count ≤ result) × (result ≤ length list.new) × (drop result list.new ≡ drop result list.old) }
{
    match begun {
        Some(value) => {
            list[count] = value;
            count + 1
        }
        None => count,
    }
}

// Reads the numbers of a text into the start of a list: after a fault, those that are whole before it.
pub fn read_numbers(text: &[u8], list: &mut [u32]) -> Result<usize, Fault>
    ensures told { result ≡ numbers_told (numbers_in (length list.old) text.now) }
    ensures list { list.new ≡ read_into text.now list.old }
{
    let mut count = 0;
    let mut begun = None;
    for b in text {
        if is_space(*b) {
            count = put(list, count, begun);
            begun = None;
        } else {
            begun = Some(with_digit(begun, *b, count, list.len())?);
        }
    }
    Ok(put(list, count, begun))
}
