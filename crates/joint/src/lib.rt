// All parties of the online phase in one run.
#![tactic(auto)]

mod asking;
mod framing;
mod parts;
mod receiving;
mod rounds;
mod sending;

ghost use Rattle.std.specs.Prelude.{◌≡◌};
ghost use Rattle.field.specs.Words.{ops};
ghost use Rattle.protocol.specs.JointEntry.{joint_answer, joint_scratch, joint_transcript, joint_outputs};
ghost use Rattle.joint.specs.Code.{joint_answer_of, joint_of};

use circuit::questions::Refusal;
use field::Word;
use protocol::{Blame, Layout};

// How a run ends: the rounds made; or the gate at which it is aborted, whom the stop names, and the rounds made.
#[derive(Clone, Copy)]
pub enum Ending {
    Done(usize),
    Aborted {
        gate: usize,
        blame: Blame,
        rounds: usize,
    },
}

// What stays the same from gate to gate: the number of parties, the layout and the length of a party's scratch, and the length of its
// preprocessing.
#[derive(Clone, Copy)]
pub struct Frame {
    pub parties: usize,
    pub layout: Layout,
    pub scratch: usize,
    pub prep: usize,
}

// What goes on from gate to gate: the gate that the run has come to, before which linear gates may be left to do, and where the record of the next
// gate that has rounds stands in each party's preprocessing; how many opened entries wait for a check; and how many coefficients are used, checks
// begun, words written, outputs released and rounds made.
#[derive(Clone, Copy)]
pub struct Stop {
    pub gate: usize,
    pub prep: usize,
    pub waiting: usize,
    pub used: usize,
    pub checks: usize,
    pub written: usize,
    pub released: usize,
    pub rounds: usize,
}

// A check that is made: the sum of the check shares, and where the run stands if it goes on.
// No Result: an abort needs the rounds of that stop, too, and what is checked is said of the sum, whatever it is.
#[derive(Clone, Copy)]
pub struct Checkup {
    pub sum: Word,
    pub next: Stop,
}

pub fn joint_run(
    parties: usize,
    c: &[Word],
    preps: &[Word],
    inputs: &[Word],
    scratch: &mut [Word],
    coefficients: &[Word],
    nonces: &[u8],
    transcript: &mut [Word],
    outputs: &mut [Word],
) -> Result<Ending, Refusal>
    ensures answer { joint_answer_of result
        ≡ joint_answer ops (joint_of parties c.now preps.now inputs.now coefficients.now nonces.now)
        scratch.old transcript.old outputs.old }
    ensures scratch { scratch.new
        ≡ joint_scratch ops (joint_of parties c.now preps.now inputs.now coefficients.now nonces.now)
        scratch.old transcript.old outputs.old }
    ensures transcript { transcript.new
        ≡ joint_transcript ops (joint_of parties c.now preps.now inputs.now coefficients.now nonces.now)
        scratch.old transcript.old outputs.old }
    ensures outputs { outputs.new
        ≡ joint_outputs ops (joint_of parties c.now preps.now inputs.now coefficients.now nonces.now)
        scratch.old transcript.old outputs.old }
{
    party::asking::ask_setting(parties, c)?;
    let count = c.len() / gates::reading::GATE_SIZE;
    let totals = gates::counting::totals_before(c, count);
    let f = framing::frame_of(parties, c, count, totals);
    asking::ask_lent(
        f,
        totals,
        c,
        preps,
        inputs,
        scratch.len(),
        coefficients,
        nonces.len(),
        transcript.len(),
        outputs.len(),
    )?;
    let mut places = framing::starts_of(parties, c, count);
    Ok(rounds::run(
        f,
        &mut places,
        c,
        preps,
        inputs,
        scratch,
        coefficients,
        nonces,
        transcript,
        outputs,
    ))
}
