// The questions of the joint run after those that a party asks of parties and circuit.
ghost use Rattle.std.specs.Prelude.{◌≡◌, ◌*◌, ◌≤◌};
ghost use Rattle.field.specs.Words.{size};
ghost use Rattle.circuit.specs.Verdict.{◌then◌};
ghost use Rattle.circuit.specs.Question.{verdict_of};
ghost use Rattle.circuit.specs.Code.{Totalled};
ghost use Rattle.circuit.specs.Count.{prep_size, in_count, out_count};
ghost use Rattle.circuit.specs.Round.{nonce_size, word_count, coefficient_count, check_count};
ghost use Rattle.circuit.specs.Valid.{Valid};
ghost use Rattle.protocol.specs.Scratch.{scratch_size};
ghost use Rattle.protocol.specs.Ask.{most_parties};
ghost use Rattle.joint.specs.Code.{Framed, lists_of, rooms_of};

use crate::Frame;
use circuit::Totals;
use circuit::questions::{Question, Refusal, ask};
use circuit::rounds::NONCE_SIZE;
use field::Word;
use party::asking::{ask_elements, ask_lists};

// Questions 16, 17, 25 and 18: so many coefficients, bytes of nonces, words and outputs are wanted.
#[tactic(auto, using(circuit::proofs::Verdicts::asked))]
fn ask_rooms(
    coefficients: &[Word],
    due: usize,
    nonces: usize,
    bytes: usize,
    words: usize,
    transcript: usize,
    outs: usize,
    outputs: usize,
) -> Result<(), Refusal>
    ensures { verdict_of result ≡ rooms_of coefficients.now due nonces bytes words transcript outs outputs }
{
    ask(Question::CoefficientCount, 0, coefficients.len() == due)?;
    ask_elements(Question::Coefficients, coefficients)?;
    ask(Question::Nonce, 0, nonces == bytes)?;
    ask(Question::Room, 0, words <= transcript && outs <= outputs)
}

// The questions after 7, of a scratch, nonces, a transcript and a list of outputs of those lengths.
pub fn ask_lent(
    f: Frame,
    totals: Totals,
    c: &[Word],
    preps: &[Word],
    inputs: &[Word],
    room: usize,
    coefficients: &[Word],
    nonces: usize,
    transcript: usize,
    outputs: usize,
) -> Result<(), Refusal>
    requires { Valid f.parties size c.now
        × (f.parties ≤ most_parties)
        × Framed f.parties c.now f
        × Totalled c.now f.layout.gates totals }
    ensures { verdict_of result
        ≡ (lists_of preps.now (f.parties * prep_size c.now) inputs.now (in_count c.now) room (f.parties * scratch_size f.parties c.now)
        then rooms_of coefficients.now (coefficient_count c.now) nonces (nonce_size * (f.parties * check_count c.now)) (f.parties * word_count c.now) transcript (out_count c.now) outputs) }
{
    ask_lists(
        preps,
        f.parties * f.prep,
        inputs,
        totals.ins,
        room,
        f.parties * f.scratch,
    )?;
    ask_rooms(
        coefficients,
        totals.coefficients,
        nonces,
        NONCE_SIZE * (f.parties * totals.checks),
        f.parties * totals.words,
        transcript,
        totals.outs,
        outputs,
    )
}
