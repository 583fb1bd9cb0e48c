// The entries for callers in C that read and write sheets.
ghost use Rattle.std.specs.Prelude.{◌≡◌, ℕ, ◌≤◌, length};
ghost use Rattle.field.specs.Words.{size, largest};
ghost use Rattle.protocol.specs.Send.{overwrite};
ghost use Rattle.protocol.specs.Entry.{leave};
ghost use Rattle.forms.specs.Entry.{read_answer, read_circuit, write_answer, write_text};
ghost use Rattle.forms.specs.Code.{answer_of};
ghost use Rattle.capi.specs.Numbers.{places};
ghost use Rattle.capi.specs.Calls.{returned};
ghost use Rattle.capi.specs.Sheets.{sheet_read, sheet_written, sheet_numbers, read_call, write_call};

use crate::Refusal;
use circuit::questions;
use field::Word;

// The first number of the reader's answer, and of the writer's.
const READ: u64 = 4;

const WRITTEN: u64 = 5;

// Nothing is written of a refusal.
#[tactic(auto, unfolding(crate::specs::Sheets::sheet_numbers, protocol::specs::Send::overwrite))]
fn put_sheet(answer: &mut [u64], kind: u64, a: Result<usize, questions::Refusal>)
    requires { places ≤ length answer.old }
    ensures { answer.new ≡ overwrite (sheet_numbers kind (answer_of a)) answer.old }
{
    if let Ok(count) = a {
        crate::put(answer, &[kind, count as u64, 0, 0, 0, 0]);
    }
}

// Reading a sheet. Where its answer has no room, its circuit has none: no accepted circuit is empty, so that nothing is written.
pub fn spdz_read_sheet(
    parties: usize,
    text: &[u8],
    circuit: &mut [Word],
    answer: &mut [u64],
) -> Refusal
    ensures returned { result ≡ returned (read_call parties text.now circuit.old answer.old) }
    ensures answer { answer.new
        ≡ leave (read_call parties text.now circuit.old answer.old)
        (overwrite (sheet_numbers sheet_read (read_answer parties size largest text.now (length circuit.old))) answer.old)
        answer.old }
    ensures circuit { circuit.new
        ≡ leave (read_call parties text.now circuit.old answer.old)
        (read_circuit parties size largest text.now circuit.old)
        circuit.old }
{
    if answer.len() < crate::PLACES {
        return crate::returned_of(&reader::read_sheet(parties, text, &mut circuit[..0]));
    }
    let read = reader::read_sheet(parties, text, circuit);
    put_sheet(answer, READ, read);
    crate::returned_of(&read)
}

// Writing a sheet. Where its answer has no room, its text has none: no sheet of an accepted circuit is empty, so that nothing is written.
pub fn spdz_write_sheet(parties: usize, c: &[Word], text: &mut [u8], answer: &mut [u64]) -> Refusal
    ensures returned { result ≡ returned (write_call parties c.now text.old answer.old) }
    ensures answer { answer.new
        ≡ leave (write_call parties c.now text.old answer.old)
        (overwrite (sheet_numbers sheet_written (write_answer parties size c.now (length text.old))) answer.old)
        answer.old }
    ensures text { text.new
        ≡ leave (write_call parties c.now text.old answer.old)
        (write_text parties size c.now text.old)
        text.old }
{
    if answer.len() < crate::PLACES {
        return crate::returned_of(&writer::write_sheet(parties, c, &mut text[..0]));
    }
    let written = writer::write_sheet(parties, c, text);
    put_sheet(answer, WRITTEN, written);
    crate::returned_of(&written)
}
