// Requests about sheets: reading, writing, and a score whose circuit is on a sheet. A text stands in a request as a list of numbers.
ghost use Rattle.std.specs.Prelude.{◌≡◌, length};
ghost use Rattle.field.specs.Words.{size, largest};
ghost use Rattle.forms.specs.Entry.{read_answer, read_circuit, write_answer, write_text};
ghost use Rattle.forms.specs.Code.{answer_of};
ghost use Rattle.requests.specs.Texts.{lows};

use crate::answering::answer_joint;
use circuit::questions::Refusal;
use field::Word;
use gates::asking::MOST_GATES;
use gates::reading::GATE_SIZE;
use requests::bytes::{to_bytes, to_numbers};
use requests::entries::print_refusal;
use requests::naming::Field;
use requests::request::{ROOM, Request};
use requests::storing::room;
use std::io;
use std::io::Write;

// The reader on numbers, whose bytes are put into a room.
fn read_in(
    parties: usize,
    text: &[Word],
    room: &mut [u8],
    circuit: &mut [Word],
) -> Result<usize, Refusal>
    requires { length text.now ≡ length room.old }
    ensures { (answer_of result ≡ read_answer parties size largest (lows text.now) (length circuit.old))
        × (circuit.new ≡ read_circuit parties size largest (lows text.now) circuit.old) }
{
    to_bytes(text, room);
    reader::read_sheet(parties, room, circuit)
}

// The writer on numbers, whose bytes are put into a room and back.
fn write_in(
    parties: usize,
    c: &[Word],
    room: &mut [u8],
    text: &mut [Word],
) -> Result<usize, Refusal>
    requires { length text.old ≡ length room.old }
    ensures { (answer_of result ≡ write_answer parties size c.now (length text.old))
        × (text.new ≡ write_text parties size c.now (lows text.old)) }
{
    to_bytes(text, room);
    let answer = writer::write_sheet(parties, c, room);
    to_numbers(room, text);
    answer
}

// The reader on the text of a request, which is no longer than its room.
fn read_text(request: Request, text: &[Word], circuit: &mut [Word]) -> Result<usize, Refusal> {
    let count = text.len().min(ROOM);
    let mut bytes = room::<u8, ROOM>(0);
    read_in(
        request.number(Field::Parties),
        &text[..count],
        &mut bytes[..count],
        circuit,
    )
}

// What is counted, by its name, or the refusal.
fn print_answer<W: Write>(
    to: &mut W,
    name: &str,
    answer: Result<usize, Refusal>,
) -> io::Result<()> {
    match answer {
        Ok(count) => writeln!(to, "{name} {count}"),
        Err(refusal) => print_refusal(to, refusal),
    }
}

pub fn answer_read<W: Write>(
    to: &mut W,
    request: Request,
    text: &[Word],
    circuit: &mut [Word],
) -> io::Result<()> {
    let answer = read_text(request, text, circuit);
    print_answer(to, "lines", answer)?;
    printing::print_list(to, b"circuit", circuit)
}

pub fn answer_write<W: Write>(
    to: &mut W,
    request: Request,
    c: &[Word],
    text: &mut [Word],
) -> io::Result<()> {
    let count = text.len().min(ROOM);
    let mut bytes = room::<u8, ROOM>(0);
    let answer = write_in(
        request.number(Field::Parties),
        c,
        &mut bytes[..count],
        &mut text[..count],
    );
    print_answer(to, "bytes", answer)?;
    printing::print_list(to, b"text", text)
}

// A sheet that is read is run as its circuit.
pub fn answer_score<W: Write>(
    to: &mut W,
    request: Request,
    text: &[Word],
    preps: &[Word],
    inputs: &[Word],
    scratch: &mut [Word],
    coefficients: &[Word],
    nonces: &[u8],
    transcript: &mut [Word],
    outputs: &mut [Word],
) -> io::Result<()> {
    let mut circuit = room::<Word, 1024>(0);
    match read_text(request, text, &mut circuit) {
        Err(refusal) => print_refusal(to, refusal),
        Ok(count) => {
            let n = GATE_SIZE * count.min(MOST_GATES);
            answer_joint(
                to,
                request,
                &circuit[..n],
                preps,
                inputs,
                scratch,
                coefficients,
                nonces,
                transcript,
                outputs,
            )
        }
    }
}
