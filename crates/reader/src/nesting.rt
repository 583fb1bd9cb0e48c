// Reading a form with all that is in it: document 01's cycle of form reader and operand reader, in which the remaining depth falls. The text and
// the table of rows are lent by references to their slices, which a call passes on as they are.
ghost use Rattle.std.specs.Prelude.{◌+◌, ◌*◌, ◌^◌, ◌<◌, ◌≤◌, ◌≡◌, true, eqb, length, Result};
ghost use Rattle.circuit.specs.Gate.{gate_size};
ghost use Rattle.circuit.specs.Accept.{most_gates};
ghost use Rattle.circuit.specs.Verdict.{ask};
ghost use Rattle.circuit.specs.Question.{verdict_of};
ghost use Rattle.forms.specs.declared.Sort.TheVariants.{Leaf, One, Two, Scaled};
ghost use Rattle.forms.specs.Words.{sort, stands, line};
ghost use Rattle.forms.specs.Form.{opening};
ghost use Rattle.forms.specs.Refusals.{deepest};
ghost use Rattle.tokens.specs.Code.{is_at};
ghost use Rattle.reader.specs.Code.{Given, worded, fresh, gate, Told, Closes, Placed};

use crate::Operand;
use circuit::Role;
use circuit::questions::{Question, Refusal, ask};
use field::Word;
use forms::{Head, Sort};
use gates::reading;
use tokens::{numbers, table, words};

// "at most 16 deep"
pub const DEEPEST: usize = 16;

// The byte that is wanted stands here, or it is refused.
#[inline(always)]
pub fn want(text: &[u8], at: usize, b: u8) -> Result<(), Refusal>
    ensures { verdict_of result ≡ ask 22 at (is_at text.now at b) }
{
    ask(Question::Form, at, tokens::expect(text, at, b))
}

// What was read of words and numbers, or a refusal of the byte at which it dies.
#[inline(always)]
fn placed<T>(read: Result<T, usize>) -> Result<T, Refusal>
    ensures { Placed read result }
{
    match read {
        Ok(found) => Ok(found),
        Err(index) => Err(Refusal {
            question: Question::Form,
            index,
        }),
    }
}

// Closes a form at its bracket: its gate is written, unless there are 256 before it.
#[inline(always)]
fn close_gate(
    lines: &mut [Word; crate::MOST_NUMBERS],
    at: usize,
    h: Head,
    first: Word,
    second: Word,
    constant: Word,
    count: usize,
) -> Result<Operand, Refusal>
    requires { (count ≤ most_gates) × (gate_size * most_gates ≤ length lines.old) × (at + 1 < 2 ^ 64) }
    ensures { Closes h (gate h first second constant) lines.old lines.new at count result }
{
    ask(Question::GateCount, at, count < crate::MOST_GATES)?;
    let row = table::row(h);
    let i = reading::GATE_SIZE * count;
    lines[i..i + reading::GATE_SIZE].copy_from_slice(&[row.kind, first, second, constant]);
    Ok(Operand {
        to: at + 1,
        count: count + 1,
        wire: count as Word,
        valued: row.valued,
    })
}

// The gate of a form with an operand and a number, which is its constant or its second number, as its word has it.
#[inline(always)]
fn close_scaled(
    lines: &mut [Word; crate::MOST_NUMBERS],
    at: usize,
    h: Head,
    x: Word,
    n: Word,
    count: usize,
) -> Result<Operand, Refusal>
    requires { (count ≤ most_gates) × (gate_size * most_gates ≤ length lines.old) × (at + 1 < 2 ^ 64) × (sort h ≡ Scaled) }
    ensures { Closes h (line h x 0 n) lines.old lines.new at count result }
{
    match table::row(h).constant {
        Role::Constant | Role::Divisor => close_gate(lines, at, h, x, 0, n, count),
        Role::Unused | Role::Party | Role::Wire => close_gate(lines, at, h, x, n, 0, count),
    }
}

// (w N). A name makes no gate of its own.
#[inline(always)]
fn read_leaf(
    text: &&[u8],
    table: &&[Word],
    lines: &mut [Word; crate::MOST_NUMBERS],
    from: usize,
    h: Head,
    left: usize,
    count: usize,
) -> Result<Operand, Refusal>
    requires { Given text.now.now table.now.now lines.old from count × (sort h ≡ Leaf) × (1 ≤ left)
        × (stands (eqb left deepest) h ≡ true) }
    ensures { Told (worded h) text.now.now table.now.now lines.old lines.new
        from left count result }
{
    let row = table::row(h);
    let number = placed(numbers::read_number(*text, *table, from, row.naming))?;
    if row.naming {
        let j = field::index(number.value);
        return Ok(Operand {
            to: number.to + 1,
            count,
            wire: table[j] / 2,
            valued: row.valued,
        });
    }
    close_gate(lines, number.to, h, number.value, 0, 0, count)
}

// (w F)
#[cycle(nesting)]
#[inline(always)]
fn read_one(
    text: &&[u8],
    table: &&[Word],
    lines: &mut [Word; crate::MOST_NUMBERS],
    from: usize,
    h: Head,
    left: usize,
    count: usize,
) -> Result<Operand, Refusal>
    requires { Given text.now.now table.now.now lines.old from count × (sort h ≡ One) × (1 ≤ left) × (left ≤ deepest) }
    ensures { Told (worded h) text.now.now table.now.now lines.old lines.new
        from left count result }
{
    let x = read_operand(text, table, lines, from, left - 1, count)?;
    want(*text, x.to, tokens::CLOSING)?;
    close_gate(lines, x.to, h, x.wire, 0, 0, x.count)
}

// (w F N)
#[cycle(nesting)]
#[inline(always)]
fn read_scaled(
    text: &&[u8],
    table: &&[Word],
    lines: &mut [Word; crate::MOST_NUMBERS],
    from: usize,
    h: Head,
    left: usize,
    count: usize,
) -> Result<Operand, Refusal>
    requires { Given text.now.now table.now.now lines.old from count × (sort h ≡ Scaled) × (1 ≤ left) × (left ≤ deepest) }
    ensures { Told (worded h) text.now.now table.now.now lines.old lines.new
        from left count result }
{
    let x = read_operand(text, table, lines, from, left - 1, count)?;
    want(*text, x.to, tokens::SPACE)?;
    let number = placed(numbers::read_number(*text, *table, x.to + 1, false))?;
    close_scaled(lines, number.to, h, x.wire, number.value, x.count)
}

// (w F F)
#[cycle(nesting)]
#[inline(always)]
fn read_two(
    text: &&[u8],
    table: &&[Word],
    lines: &mut [Word; crate::MOST_NUMBERS],
    from: usize,
    h: Head,
    left: usize,
    count: usize,
) -> Result<Operand, Refusal>
    requires { Given text.now.now table.now.now lines.old from count × (sort h ≡ Two) × (1 ≤ left) × (left ≤ deepest) }
    ensures { Told (worded h) text.now.now table.now.now lines.old lines.new
        from left count result }
{
    let x = read_operand(text, table, lines, from, left - 1, count)?;
    want(*text, x.to, tokens::SPACE)?;
    let y = read_operand(text, table, lines, x.to + 1, left - 1, x.count)?;
    want(*text, y.to, tokens::CLOSING)?;
    close_gate(lines, y.to, h, x.wire, y.wire, 0, y.count)
}

// A form, from its bracket on, which stands there. So many forms may be open, this one with them.
#[cycle(nesting)]
fn read_form(
    text: &&[u8],
    table: &&[Word],
    lines: &mut [Word; crate::MOST_NUMBERS],
    from: usize,
    left: usize,
    count: usize,
) -> Result<Operand, Refusal>
    requires { Given text.now.now table.now.now lines.old from count × (is_at text.now.now from opening ≡ true) × (1 ≤ left)
        × (left ≤ deepest) }
    ensures { Told fresh text.now.now table.now.now lines.old lines.new from left count result }
{
    let word = placed(words::read_word(text, table, from + 1, left == DEEPEST))?;
    let row = table::row(word.head);
    match row.sort {
        Sort::Leaf => read_leaf(text, table, lines, word.to, word.head, left, count),
        Sort::One => read_one(text, table, lines, word.to, word.head, left, count),
        Sort::Two => read_two(text, table, lines, word.to, word.head, left, count),
        Sort::Scaled => read_scaled(text, table, lines, word.to, word.head, left, count),
    }
}

// A form inside another, or a row. Where no more forms may be open, its bracket is refused. A name or an input, which most operands are, is
// read at once.
#[cycle(nesting)]
pub fn read_operand(
    text: &&[u8],
    table: &&[Word],
    lines: &mut [Word; crate::MOST_NUMBERS],
    from: usize,
    left: usize,
    count: usize,
) -> Result<Operand, Refusal>
    requires { Given text.now.now table.now.now lines.old from count × (left ≤ deepest)
        × (left ≡ deepest → from < length text.now.now) }
    ensures { Told fresh text.now.now table.now.now lines.old lines.new from left count result }
{
    ask(
        Question::Form,
        from,
        tokens::expect(*text, from, tokens::OPENING),
    )?;
    ask(Question::Depth, from, left != 0)?;
    if left < DEEPEST {
        if let Some(name) = numbers::read_name(*text, *table, from) {
            return Ok(Operand {
                to: name.to,
                count,
                wire: name.wire,
                valued: false,
            });
        }
        if let Some(number) = numbers::read_input(*text, from) {
            return close_gate(lines, number.to, Head::In, number.value, 0, 0, count);
        }
    }
    read_form(text, table, lines, from, left, count)
}
