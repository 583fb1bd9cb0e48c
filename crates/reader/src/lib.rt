// The reader of sheets: a text is read as the circuit that it says, or refused.
#![tactic(auto)]

pub mod nesting;
pub mod rows;

ghost use Rattle.std.specs.Prelude.{◌≡◌, length};
ghost use Rattle.field.specs.Words.{size, largest};
ghost use Rattle.forms.specs.Entry.{read_answer, read_circuit};
ghost use Rattle.forms.specs.Code.{answer_of};
ghost use Rattle.reader.specs.Code.{Settled};

use circuit::questions::{Question, Refusal, ask};
use field::Word;
use gates::reading;
use party::asking;

// "L from 2 to 256".
const MOST_GATES: usize = gates::asking::MOST_GATES;

// The numbers of so many gates.
const MOST_NUMBERS: usize = reading::GATE_SIZE * MOST_GATES;

// A form that is read, as far as the byte behind it: how many gates there are now, the gate that has its value, and whether it has one.
#[derive(Clone, Copy, PartialEq, Eq)]
pub struct Operand {
    pub to: usize,
    pub count: usize,
    pub wire: Word,
    pub valued: bool,
}

// Questions 3 to 7 of the circuit that was read, then 18; then it is handed over.
fn settle(parties: usize, read: &[Word], circuit: &mut [Word]) -> Result<usize, Refusal>
    ensures { Settled parties read.now circuit.old circuit.new result }
{
    asking::ask_circuit(parties, read)?;
    ask(Question::Room, 0, read.len() <= circuit.len())?;
    circuit[..read.len()].copy_from_slice(read);
    Ok(read.len() / reading::GATE_SIZE)
}

// The entry. The text is read into a list of the reader's own, so that nothing is written on a refusal.
pub fn read_sheet(parties: usize, text: &[u8], circuit: &mut [Word]) -> Result<usize, Refusal>
    ensures { (answer_of result ≡ read_answer parties size largest text.now (length circuit.old))
        × (circuit.new ≡ read_circuit parties size largest text.now circuit.old) }
{
    asking::ask_parties(parties)?;
    let mut lines = [0; MOST_NUMBERS];
    let count = rows::read_rows(text, &mut lines)?;
    settle(parties, &lines[..reading::GATE_SIZE * count], circuit)
}
