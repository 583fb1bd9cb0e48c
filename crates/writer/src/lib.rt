// The writer of sheets: each gate of a circuit as a row.
#![tactic(auto)]

mod lengths;
mod rows;
mod writing;

ghost use Rattle.std.specs.Prelude.{◌≡◌, ◌*◌, ◌≤◌, length};
ghost use Rattle.field.specs.Words.{size};
ghost use Rattle.forms.specs.Entry.{write_answer, write_text};
ghost use Rattle.forms.specs.Code.{answer_of};
ghost use Rattle.circuit.specs.Gate.{gate_size};
ghost use Rattle.writer.specs.Code.{row_room, Handed};

use circuit::questions::{Question, Refusal, ask};
use field::Word;
use forms::Head;
use gates::reading;

// The row of a gate: a word with a number, a name, two names, or a name and a number. A name is told by the gate that it names.
#[derive(Clone, Copy)]
pub enum Form {
    Leaf {
        head: Head,
        number: usize,
    },
    One {
        head: Head,
        first: usize,
    },
    Two {
        head: Head,
        first: usize,
        second: usize,
    },
    Scaled {
        head: Head,
        first: usize,
        number: usize,
    },
}

// No row is longer, whatever its numbers are.
const ROW_ROOM: usize = 66;

// Room for as many rows as there may be gates, and for a few.
const SHEET_ROOM: usize = ROW_ROOM * gates::asking::MOST_GATES;

const FEW_GATES: usize = 16;

const FEW_ROOM: usize = ROW_ROOM * FEW_GATES;

// The rows of the first gates are put over a list with room for them; then 18 is asked of their bytes, and they are handed over.
fn hand_over(sheet: &mut [u8], c: &[Word], gates: usize, text: &mut [u8]) -> Result<usize, Refusal>
    requires { (gate_size * gates ≤ length c.now) × (row_room * gates ≤ length sheet.old) }
    ensures { Handed c.now gates text.old text.new result }
{
    let count = writing::put_rows(sheet, c, gates);
    ask(Question::Room, 0, count <= text.len())?;
    writing::put_bytes(text, 0, &sheet[..count]);
    Ok(count)
}

// Writes a circuit as a sheet. Where there is room whatever the rows are, they are put at once; else over a list of the writer's own, so that
// nothing is written on a refusal.
pub fn write_sheet(parties: usize, c: &[Word], text: &mut [u8]) -> Result<usize, Refusal>
    ensures { (answer_of result ≡ write_answer parties size c.now (length text.old))
        × (text.new ≡ write_text parties size c.now text.old) }
{
    party::asking::ask_setting(parties, c)?;
    let gates = c.len() / reading::GATE_SIZE;
    if ROW_ROOM * gates <= text.len() {
        return Ok(writing::put_rows(text, c, gates));
    }
    if gates <= FEW_GATES {
        let mut few: [u8; FEW_ROOM] = [0; FEW_ROOM];
        return hand_over(&mut few, c, gates, text);
    }
    let mut sheet: [u8; SHEET_ROOM] = [0; SHEET_ROOM];
    hand_over(&mut sheet, c, gates, text)
}
