// Reading the rows of a text, one after another.
ghost use Rattle.std.specs.Prelude.{◌*◌, ◌/◌, ◌%◌, ◌<◌, ◌≤◌, ◌≡◌, eqb, length};
ghost use Rattle.circuit.specs.Gate.{gate_size};
ghost use Rattle.circuit.specs.Accept.{most_gates};
ghost use Rattle.reader.specs.Code.{RowsTold};

use crate::nesting;
use circuit::questions::Refusal;
use field::Word;

// What the table of rows says of a row: twice the gate of its value, and one more if it has one.
fn entry_of(wire: Word, valued: bool) -> Word
    requires { wire < most_gates }
    ensures { (result / 2 ≡ wire) × (eqb (result % 2) 1 ≡ valued) }
{
    if valued { 2 * wire + 1 } else { 2 * wire }
}

// All rows, each a form and its line feed: how many gates they make. Every row makes a gate, so that the table has room for as many as there
// may be gates.
pub fn read_rows(text: &[u8], lines: &mut [Word; crate::MOST_NUMBERS]) -> Result<usize, Refusal>
    requires { gate_size * most_gates ≤ length lines.old }
    ensures { RowsTold text.now lines.new result }
{
    let mut table = [0; crate::MOST_GATES];
    let mut rows = 0;
    let mut at = 0;
    let mut count = 0;
    while at < text.len() {
        let known = &table[..rows];
        let row = nesting::read_operand(&text, &known, lines, at, nesting::DEEPEST, count)?;
        nesting::want(text, row.to, tokens::FEED)?;
        table[rows] = entry_of(row.wire, row.valued);
        rows += 1;
        at = row.to + 1;
        count = row.count;
    }
    Ok(count)
}
