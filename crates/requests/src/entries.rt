// The entries that one party calls, and their answers. An error is the writer's; what is lent is then as the entry left it.
ghost use Rattle.std.specs.Prelude.{◌≡◌, length};
ghost use Rattle.field.specs.Words.{ops};
ghost use Rattle.protocol.specs.Entry.{send_out, send_scratch, receive_scratch};
ghost use Rattle.party.specs.Code.{position_of};
ghost use Rattle.requests.specs.Calls.{party_in};

use crate::naming::{Field, stage_name};
use crate::request::Request;
use circuit::questions::Refusal;
use field::Word;
use party::{Outcome, Position};
use protocol::Blame;
use std::io;
use std::io::Write;

// A gate, a stage and a check share, and the end of the line.
fn print_position<W: Write>(to: &mut W, at: Position) -> io::Result<()> {
    writeln!(to, " {} {} {}", at.gate, stage_name(at.stage), at.held)
}

// Whom a stop names, if anybody, and the end of the line.
pub fn print_blame<W: Write>(to: &mut W, blame: Blame) -> io::Result<()> {
    match blame {
        Some(i) => writeln!(to, " party {i}"),
        None => writeln!(to),
    }
}

pub fn print_refusal<W: Write>(to: &mut W, refusal: Refusal) -> io::Result<()> {
    let number = refusal.question.number();
    writeln!(to, "refusal {number} {}", refusal.index)
}

fn print_outcome<W: Write>(to: &mut W, outcome: Outcome) -> io::Result<()> {
    match outcome {
        Outcome::Next(at) => {
            write!(to, "next")?;
            print_position(to, at)
        }
        Outcome::Output(value, at) => {
            write!(to, "output {value}")?;
            print_position(to, at)
        }
        Outcome::Abort(blame, at) => {
            write!(to, "abort {} {} {}", at.gate, stage_name(at.stage), at.held)?;
            print_blame(to, blame)
        }
    }
}

fn print_answer<W: Write>(to: &mut W, answer: Result<Outcome, Refusal>) -> io::Result<()> {
    match answer {
        Ok(outcome) => print_outcome(to, outcome),
        Err(refusal) => print_refusal(to, refusal),
    }
}

pub fn answer_open<W: Write>(
    to: &mut W,
    request: Request,
    c: &[Word],
    prep: &[Word],
    inputs: &[Word],
    scratch: &[Word],
) -> io::Result<()> {
    let answer = party::open_run(
        request.number(Field::Parties),
        request.number(Field::Party),
        c,
        prep,
        inputs,
        scratch,
    );
    print_answer(to, answer)
}

pub fn answer_send<W: Write>(
    to: &mut W,
    request: Request,
    c: &[Word],
    prep: &[Word],
    inputs: &[Word],
    scratch: &mut [Word],
    coefficients: &[Word],
    nonce: &[u8],
    out: &mut [Word],
) -> io::Result<()>
    ensures out { out.new ≡ send_out ops (party_in request c.now prep.now inputs.now) scratch.old (position_of request.at) coefficients.now nonce.now out.old }
    ensures scratch { scratch.new ≡ send_scratch ops (party_in request c.now prep.now inputs.now) scratch.old (position_of request.at) coefficients.now nonce.now (length out.old) }
{
    let answer = party::send(
        request.number(Field::Parties),
        request.number(Field::Party),
        c,
        prep,
        inputs,
        scratch,
        request.at,
        coefficients,
        nonce,
        out,
    );
    print_answer(to, answer)?;
    printing::print_list(to, b"scratch", scratch)?;
    printing::print_list(to, b"out", out)
}

pub fn answer_receive<W: Write>(
    to: &mut W,
    request: Request,
    c: &[Word],
    prep: &[Word],
    inputs: &[Word],
    scratch: &mut [Word],
    heard: &[Word],
) -> io::Result<()>
    ensures scratch { scratch.new ≡ receive_scratch ops (party_in request c.now prep.now inputs.now) scratch.old (position_of request.at) heard.now }
{
    let answer = party::receive(
        request.number(Field::Parties),
        request.number(Field::Party),
        c,
        prep,
        inputs,
        scratch,
        request.at,
        heard,
    );
    print_answer(to, answer)?;
    printing::print_list(to, b"scratch", scratch)
}
