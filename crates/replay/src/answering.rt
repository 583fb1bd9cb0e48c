// Calling the entry of a request and printing its answer.
use crate::sheets::{answer_read, answer_score, answer_write};
use circuit::questions::Refusal;
use field::Word;
use joint::Ending;
use requests::bytes::to_bytes;
use requests::entries::{answer_open, answer_receive, answer_send, print_blame, print_refusal};
use requests::naming::{Entry, Field};
use requests::request::{ROOM, Request};
use requests::storing::{Lists, room};
use std::io;
use std::io::Write;

fn print_ending<W: Write>(to: &mut W, answer: Result<Ending, Refusal>) -> io::Result<()> {
    match answer {
        Err(refusal) => print_refusal(to, refusal),
        Ok(Ending::Done(rounds)) => writeln!(to, "done {rounds}"),
        Ok(
            Ending::Aborted {
                gate,
                blame,
                rounds,
            },
        ) => {
            write!(to, "stopped {gate} {rounds}")?;
            print_blame(to, blame)
        }
    }
}

// So many numbers of a list, no more than it has.
fn part(list: &mut [Word], n: usize) -> &mut [Word] {
    let n = n.min(list.len());
    &mut list[..n]
}

// A joint run of a circuit: the lists that it may write, or its rounds.
pub fn answer_joint<W: Write>(
    to: &mut W,
    request: Request,
    c: &[Word],
    preps: &[Word],
    inputs: &[Word],
    scratch: &mut [Word],
    coefficients: &[Word],
    nonces: &[u8],
    transcript: &mut [Word],
    outputs: &mut [Word],
) -> io::Result<()> {
    let parties = request.number(Field::Parties);
    let answer = joint::joint_run(
        parties,
        c,
        preps,
        inputs,
        scratch,
        coefficients,
        nonces,
        transcript,
        outputs,
    );
    print_ending(to, answer)?;
    if request.entry == Some(Entry::Joint) {
        printing::print_list(to, b"scratch", scratch)?;
        printing::print_list(to, b"transcript", transcript)?;
        return printing::print_list(to, b"outputs", outputs);
    }
    match answer {
        Ok(ending) => print_shown(to, parties as u32, c, ending, transcript, outputs),
        Err(_) => Ok(()),
    }
}

// A joint run for a reader: the rounds made, and the outputs of a finished run.
fn print_shown<W: Write>(
    to: &mut W,
    parties: u32,
    c: &[Word],
    ending: Ending,
    transcript: &[Word],
    outputs: &[Word],
) -> io::Result<()> {
    match ending {
        Ending::Done(rounds) => {
            let made = printing::print_rounds(to, parties, c, rounds, transcript)?;
            printing::print_list(to, b"out", &outputs[..made.min(outputs.len())])
        }
        Ending::Aborted {
            gate: _,
            blame: _,
            rounds,
        } => {
            printing::print_rounds(to, parties, c, rounds, transcript)?;
            Ok(())
        }
    }
}

// The answer to a whole request. Each list is the part of its room that was read.
pub fn answer<W: Write>(to: &mut W, request: Request, lists: &mut Lists) -> io::Result<()> {
    let c = part(&mut *lists.circuit, request.count(Field::Circuit));
    let prep = part(&mut *lists.prep, request.count(Field::Prep));
    let inputs = part(&mut *lists.inputs, request.count(Field::Inputs));
    let scratch = part(&mut *lists.scratch, request.count(Field::Scratch));
    let words = part(&mut *lists.words, request.count(Field::Words));
    let out = part(&mut *lists.out, request.count(Field::Out));
    let outputs = part(&mut *lists.outputs, request.count(Field::Outputs));
    let read = part(&mut *lists.nonces, request.count(Field::Nonces));
    let count = read.len().min(ROOM);
    let mut bytes = room::<u8, ROOM>(0);
    let nonces = &mut bytes[..count];
    to_bytes(&read[..count], nonces);
    match request.entry {
        Some(Entry::Open) => answer_open(to, request, c, prep, inputs, scratch),
        Some(Entry::Send) => answer_send(to, request, c, prep, inputs, scratch, words, nonces, out),
        Some(Entry::Receive) => answer_receive(to, request, c, prep, inputs, scratch, words),
        Some(Entry::Joint | Entry::Show) => {
            answer_joint(
                to, request, c, prep, inputs, scratch, words, nonces, out, outputs,
            )
        }
        Some(Entry::Read) => answer_read(to, request, c, out),
        Some(Entry::Write) => answer_write(to, request, c, out),
        Some(Entry::Score) => {
            answer_score(
                to, request, c, prep, inputs, scratch, words, nonces, out, outputs,
            )
        }
        None => Ok(()),
    }
}
