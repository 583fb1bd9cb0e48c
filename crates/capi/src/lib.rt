// The entries for callers in C: numbers and lists of numbers only. A call returns its refusal; an accepted one writes its answer into a lent list.
#![tactic(auto)]

pub mod fits;
pub mod sheets;

ghost use Rattle.std.specs.Prelude.{◌≡◌, [], ◌∷◌, ◌<◌, ◌≤◌, length};
ghost use Rattle.field.specs.Words.{ops};
ghost use Rattle.circuit.specs.Verdict.{Refused, ◌then◌};
ghost use Rattle.circuit.specs.Round.{round_number};
ghost use Rattle.circuit.specs.Question.{number_of, verdict_of};
ghost use Rattle.circuit.specs.Code.{round_of};
ghost use Rattle.protocol.specs.Party.{party_of};
ghost use Rattle.protocol.specs.Code.{stage_of, blame_of};
ghost use Rattle.protocol.specs.Send.{overwrite};
ghost use Rattle.protocol.specs.Entry.{leave, open_answer, send_answer, send_out, send_scratch, receive_answer, receive_scratch};
ghost use Rattle.party.specs.Code.{position_of, answer_of};
ghost use Rattle.protocol.specs.JointEntry.{joint_answer, joint_scratch, joint_transcript, joint_outputs};
ghost use Rattle.joint.specs.Code.{joint_answer_of, joint_of};
ghost use Rattle.capi.specs.Stages.{half_number, stage_round, round_at, half_at, nowhere, position_at};
ghost use Rattle.capi.specs.Numbers.{places, number_size, blame_number, answer_numbers, joint_numbers, position_numbers, Tellable, JointTellable};
ghost use Rattle.capi.specs.Calls.{room_question, returned, open_call, send_call, receive_call, joint_call};

use circuit::questions::{self, Question};
use circuit::{Check, Round};
use field::Word;
use joint::Ending;
use party::{Outcome, Position};
use protocol::{Blame, Stage};

// What a call returns: a refusal's number and index, or 0 and 0 where it is accepted.
#[repr(C)]
#[derive(Clone, Copy)]
pub struct Refusal {
    pub number: u32,
    pub index: usize,
}

impl From<questions::Refusal> for Refusal {
    ghost from_gives = { λ r e. e ≡ record { number = number_of r.question; index = r.index } };

    fn from(refusal: questions::Refusal) -> Refusal {
        Refusal {
            number: refusal.question.number(),
            index: refusal.index,
        }
    }
}

// How many numbers an answer takes.
pub const PLACES: usize = 6;

// The first number of a party's answer, and of a joint run's.
const NEXT: u64 = 1;

const OUTPUT: u64 = 2;

const ABORTED: u64 = 3;

const DONE: u64 = 1;

const ABORTED_RUN: u64 = 2;

// The numbers that C knows of halves, and of the ends of a run.
const SEND: u32 = 0;

const RECEIVE: u32 = 1;

const FINISHED: u32 = 2;

const ABORTED_HALF: u32 = 3;

// The numbers of rounds. Where there is none stands NO_ROUND.
const OWN: u32 = 0;

const OPEN: u32 = 1;

const COMMIT_FIRST: u32 = 2;

const REVEAL_FIRST: u32 = 3;

const COMMIT_SECOND: u32 = 4;

const REVEAL_SECOND: u32 = 5;

const ROUND_NUMBERS: u32 = 6;

const NO_ROUND: u32 = 0;

// A check share that no finished position holds.
const NEVER_HELD: Word = 1;

// The round of a number below ROUND_NUMBERS.
#[tactic(auto, unfolding(crate::specs::Stages::round_at))]
fn round_at(k: u32) -> Round
    ensures { round_of result ≡ round_at k }
{
    match k {
        OWN => Round::Own,
        OPEN => Round::Open,
        COMMIT_FIRST => Round::Commit(Check::First),
        REVEAL_FIRST => Round::Reveal(Check::First),
        COMMIT_SECOND => Round::Commit(Check::Second),
        _ => Round::Reveal(Check::Second),
    }
}

// A half of a round.
#[tactic(auto, unfolding(crate::specs::Stages::half_at))]
fn half_at(half: u32, r: Round) -> Stage
    ensures { stage_of result ≡ half_at half (round_of r) }
{
    if half == SEND {
        Stage::Send(r)
    } else {
        Stage::Receive(r)
    }
}

// A position that cannot occur, which question 13 refuses.
#[tactic(auto, unfolding(crate::specs::Stages::nowhere, crate::specs::Stages::position, party::specs::Code::position_of))]
fn nowhere(gate: usize) -> Position
    ensures { position_of result ≡ nowhere gate }
{
    Position {
        gate,
        stage: Stage::Finished,
        held: NEVER_HELD,
    }
}

// The position that four numbers name. Numbers that name no half, no round, or a round where there is none give one that cannot occur.
#[tactic(auto, unfolding(crate::specs::Stages::position_at, crate::specs::Stages::position, party::specs::Code::position_of))]
fn position_at(gate: usize, half: u32, round: u32, held: Word) -> Position
    ensures { position_of result ≡ position_at gate half round held }
{
    if half < FINISHED && round < ROUND_NUMBERS {
        Position {
            gate,
            stage: half_at(half, round_at(round)),
            held,
        }
    } else if half == FINISHED && round == NO_ROUND {
        Position {
            gate,
            stage: Stage::Finished,
            held,
        }
    } else if half == ABORTED_HALF && round == NO_ROUND {
        Position {
            gate,
            stage: Stage::Aborted,
            held,
        }
    } else {
        nowhere(gate)
    }
}

#[tactic(auto, unfolding(circuit::specs::Round::round_number))]
fn round_number(r: Round) -> u32
    ensures { result ≡ round_number (round_of r) }
{
    match r {
        Round::Own => OWN,
        Round::Open => OPEN,
        Round::Commit(Check::First) => COMMIT_FIRST,
        Round::Commit(Check::Second) => COMMIT_SECOND,
        Round::Reveal(Check::First) => REVEAL_FIRST,
        Round::Reveal(Check::Second) => REVEAL_SECOND,
    }
}

#[tactic(auto, unfolding(crate::specs::Stages::half_number))]
fn half_number(s: Stage) -> u32
    ensures { result ≡ half_number (stage_of s) }
{
    match s {
        Stage::Send(_) => SEND,
        Stage::Receive(_) => RECEIVE,
        Stage::Finished => FINISHED,
        Stage::Aborted => ABORTED_HALF,
    }
}

#[tactic(auto, unfolding(crate::specs::Stages::stage_round))]
fn stage_round(s: Stage) -> u32
    ensures { result ≡ stage_round (stage_of s) }
{
    match s {
        Stage::Send(r) | Stage::Receive(r) => round_number(r),
        Stage::Finished | Stage::Aborted => NO_ROUND,
    }
}

// Numbers are written at the start of an answer's list.
#[tactic(auto, unfolding(protocol::specs::Send::overwrite))]
pub fn put(answer: &mut [u64], numbers: &[u64])
    requires { length numbers.now ≤ length answer.old }
    ensures { answer.new ≡ overwrite numbers.now answer.old }
{
    answer[..numbers.len()].copy_from_slice(numbers);
}

#[tactic(auto, unfolding(crate::specs::Numbers::position_numbers, party::specs::Code::position_of))]
fn put_position(answer: &mut [u64], kind: u64, value: u64, at: Position)
    requires { places ≤ length answer.old }
    ensures { answer.new ≡ overwrite (position_numbers kind value (position_of at)) answer.old }
{
    let half = u64::from(half_number(at.stage));
    let round = u64::from(stage_round(at.stage));
    put(
        answer,
        &[kind, value, at.gate as u64, half, round, u64::from(at.held)],
    );
}

// Nobody is 0, and a party one more than its number.
#[tactic(auto, unfolding(protocol::specs::Code::blame_of, crate::specs::Numbers::blame_number))]
fn blame_number(b: Blame) -> u64
    requires { blame_number (blame_of b) < number_size }
    ensures { result ≡ blame_number (blame_of b) }
{
    match b {
        None => 0,
        Some(i) => i as u64 + 1,
    }
}

// Nothing is written of a refusal.
#[tactic(auto, unfolding(party::specs::Code::answer_of, party::specs::Code::outcome_is, crate::specs::Numbers::answer_numbers, protocol::specs::Send::overwrite))]
fn put_answer(answer: &mut [u64], a: Result<Outcome, questions::Refusal>)
    requires { (places ≤ length answer.old) × Tellable (answer_of a) }
    ensures { answer.new ≡ overwrite (answer_numbers (answer_of a)) answer.old }
{
    match a {
        Ok(Outcome::Next(at)) => put_position(answer, NEXT, 0, at),
        Ok(Outcome::Output(value, at)) => put_position(answer, OUTPUT, u64::from(value), at),
        Ok(Outcome::Abort(blame, at)) => put_position(answer, ABORTED, blame_number(blame), at),
        Err(_) => {}
    }
}

#[tactic(auto, unfolding(joint::specs::Code::joint_answer_of, joint::specs::Code::ending_of, crate::specs::Numbers::joint_numbers, protocol::specs::Send::overwrite))]
fn put_joint(answer: &mut [u64], a: Result<Ending, questions::Refusal>)
    requires { (places ≤ length answer.old) × JointTellable (joint_answer_of a) }
    ensures { answer.new ≡ overwrite (joint_numbers (joint_answer_of a)) answer.old }
{
    match a {
        Ok(Ending::Done(rounds)) => put(answer, &[DONE, rounds as u64, 0, 0, 0, 0]),
        Ok(
            Ending::Aborted {
                gate,
                blame,
                rounds,
            },
        ) => {
            let named = blame_number(blame);
            put(
                answer,
                &[ABORTED_RUN, rounds as u64, gate as u64, named, 0, 0],
            );
        }
        Err(_) => {}
    }
}

// What a call returns whose answer has room.
#[tactic(auto, unfolding(crate::specs::Calls::returned))]
pub fn returned_of<T>(asked: &Result<T, questions::Refusal>) -> Refusal
    ensures { result ≡ returned (verdict_of asked.now) }
{
    match asked {
        Ok(_) => Refusal {
            number: 0,
            index: 0,
        },
        Err(refusal) => Refusal::from(*refusal),
    }
}

// What a call returns whose answer has none: the first question that refuses, or that of the room.
fn without_room<T>(asked: &Result<T, questions::Refusal>) -> Refusal
    ensures { result ≡ returned (verdict_of asked.now then Refused room_question 0) }
{
    match asked {
        Ok(_) => Refusal {
            number: Question::Room.number(),
            index: 0,
        },
        Err(_) => returned_of(asked),
    }
}

// Opening a run.
pub fn spdz_open_run(
    parties: usize,
    me: usize,
    c: &[Word],
    prep: &[Word],
    inputs: &[Word],
    l: &[Word],
    answer: &mut [u64],
) -> Refusal
    ensures returned { result
        ≡ returned (open_call (party_of parties me c.now prep.now inputs.now)
        l.now answer.old) }
    ensures answer { answer.new
        ≡ leave (open_call (party_of parties me c.now prep.now inputs.now) l.now answer.old)
        (overwrite (answer_numbers (open_answer ops (party_of parties me c.now prep.now inputs.now)
        l.now)) answer.old)
        answer.old }
{
    let a = party::open_run(parties, me, c, prep, inputs, l);
    if answer.len() < PLACES {
        return without_room(&a);
    }
    put_answer(answer, a);
    returned_of(&a)
}

// Sending: the words of the position's round, and the nonce that a commitment notes.
pub fn spdz_send(
    parties: usize,
    me: usize,
    c: &[Word],
    prep: &[Word],
    inputs: &[Word],
    l: &mut [Word],
    gate: usize,
    half: u32,
    round: u32,
    held: Word,
    coefficients: &[Word],
    nonce: &[u8],
    out: &mut [Word],
    answer: &mut [u64],
) -> Refusal
    ensures returned { result
        ≡ returned (send_call (party_of parties me c.now prep.now inputs.now)
        l.old (position_at gate half round held) coefficients.now nonce.now out.old answer.old) }
    ensures answer { answer.new
        ≡ leave (send_call (party_of parties me c.now prep.now inputs.now)
        l.old (position_at gate half round held) coefficients.now nonce.now out.old answer.old)
        (overwrite (answer_numbers (send_answer ops (party_of parties me c.now prep.now inputs.now)
        l.old (position_at gate half round held) coefficients.now nonce.now (length out.old))) answer.old)
        answer.old }
    ensures out { out.new
        ≡ leave (send_call (party_of parties me c.now prep.now inputs.now)
        l.old (position_at gate half round held) coefficients.now nonce.now out.old answer.old)
        (send_out ops (party_of parties me c.now prep.now inputs.now)
        l.old (position_at gate half round held) coefficients.now nonce.now out.old)
        out.old }
    ensures scratch { l.new
        ≡ leave (send_call (party_of parties me c.now prep.now inputs.now)
        l.old (position_at gate half round held) coefficients.now nonce.now out.old answer.old)
        (send_scratch ops (party_of parties me c.now prep.now inputs.now)
        l.old (position_at gate half round held) coefficients.now nonce.now (length out.old))
        l.old }
{
    let at = position_at(gate, half, round, held);
    if answer.len() < PLACES {
        return without_room(&party::asking::ask_send(
            parties,
            me,
            c,
            prep,
            inputs,
            l,
            at,
            coefficients,
            nonce,
            out.len(),
        ));
    }
    let a = party::send(
        parties,
        me,
        c,
        prep,
        inputs,
        l,
        at,
        coefficients,
        nonce,
        out,
    );
    put_answer(answer, a);
    returned_of(&a)
}

// Receiving: what the words of all lead to.
pub fn spdz_receive(
    parties: usize,
    me: usize,
    c: &[Word],
    prep: &[Word],
    inputs: &[Word],
    l: &mut [Word],
    gate: usize,
    half: u32,
    round: u32,
    held: Word,
    heard: &[Word],
    answer: &mut [u64],
) -> Refusal
    ensures returned { result
        ≡ returned (receive_call (party_of parties me c.now prep.now inputs.now)
        l.old (position_at gate half round held) heard.now answer.old) }
    ensures answer { answer.new
        ≡ leave (receive_call (party_of parties me c.now prep.now inputs.now)
        l.old (position_at gate half round held) heard.now answer.old)
        (overwrite (answer_numbers (receive_answer ops (party_of parties me c.now prep.now inputs.now)
        l.old (position_at gate half round held) heard.now)) answer.old)
        answer.old }
    ensures scratch { l.new
        ≡ leave (receive_call (party_of parties me c.now prep.now inputs.now)
        l.old (position_at gate half round held) heard.now answer.old)
        (receive_scratch ops (party_of parties me c.now prep.now inputs.now)
        l.old (position_at gate half round held) heard.now)
        l.old }
{
    let at = position_at(gate, half, round, held);
    if answer.len() < PLACES {
        return without_room(&party::asking::ask_receive(
            parties, me, c, prep, inputs, l, at, heard,
        ));
    }
    let a = party::receive(parties, me, c, prep, inputs, l, at, heard);
    put_answer(answer, a);
    returned_of(&a)
}

// The joint run of all parties. Where its answer has no room, none of the outputs has: every circuit has one, so that nothing is run.
pub fn spdz_joint_run(
    parties: usize,
    c: &[Word],
    preps: &[Word],
    inputs: &[Word],
    l: &mut [Word],
    coefficients: &[Word],
    nonces: &[u8],
    transcript: &mut [Word],
    outputs: &mut [Word],
    answer: &mut [u64],
) -> Refusal
    ensures returned { result
        ≡ returned (joint_call (joint_of parties c.now preps.now inputs.now coefficients.now nonces.now)
        l.old transcript.old outputs.old answer.old) }
    ensures answer { answer.new
        ≡ leave (joint_call (joint_of parties c.now preps.now inputs.now coefficients.now nonces.now)
        l.old transcript.old outputs.old answer.old)
        (overwrite (joint_numbers (joint_answer ops (joint_of parties c.now preps.now inputs.now coefficients.now nonces.now)
        l.old transcript.old outputs.old)) answer.old)
        answer.old }
    ensures scratch { l.new
        ≡ leave (joint_call (joint_of parties c.now preps.now inputs.now coefficients.now nonces.now)
        l.old transcript.old outputs.old answer.old)
        (joint_scratch ops (joint_of parties c.now preps.now inputs.now coefficients.now nonces.now)
        l.old transcript.old outputs.old)
        l.old }
    ensures transcript { transcript.new
        ≡ leave (joint_call (joint_of parties c.now preps.now inputs.now coefficients.now nonces.now)
        l.old transcript.old outputs.old answer.old)
        (joint_transcript ops (joint_of parties c.now preps.now inputs.now coefficients.now nonces.now)
        l.old transcript.old outputs.old)
        transcript.old }
    ensures outputs { outputs.new
        ≡ leave (joint_call (joint_of parties c.now preps.now inputs.now coefficients.now nonces.now)
        l.old transcript.old outputs.old answer.old)
        (joint_outputs ops (joint_of parties c.now preps.now inputs.now coefficients.now nonces.now)
        l.old transcript.old outputs.old)
        outputs.old }
{
    if answer.len() < PLACES {
        return returned_of(&joint::joint_run(
            parties,
            c,
            preps,
            inputs,
            l,
            coefficients,
            nonces,
            transcript,
            &mut outputs[..0],
        ));
    }
    let a = joint::joint_run(
        parties,
        c,
        preps,
        inputs,
        l,
        coefficients,
        nonces,
        transcript,
        outputs,
    );
    put_joint(answer, a);
    returned_of(&a)
}
