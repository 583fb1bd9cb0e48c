// The entries for callers in C, under their C names: each has the call and the contract of its namesake in `capi`.
#![tactic(auto)]

pub mod fits;
pub mod sheets;

ghost use Rattle.std.specs.Prelude.{◌≡◌, length};
ghost use Rattle.field.specs.Words.{ops};
ghost use Rattle.protocol.specs.Party.{party_of};
ghost use Rattle.protocol.specs.Send.{overwrite};
ghost use Rattle.protocol.specs.Entry.{leave, open_answer, send_answer, send_out, send_scratch, receive_answer, receive_scratch};
ghost use Rattle.protocol.specs.JointEntry.{joint_answer, joint_scratch, joint_transcript, joint_outputs};
ghost use Rattle.joint.specs.Code.{joint_of};
ghost use Rattle.capi.specs.Stages.{position_at};
ghost use Rattle.capi.specs.Numbers.{answer_numbers, joint_numbers};
ghost use Rattle.capi.specs.Calls.{returned, open_call, send_call, receive_call, joint_call};

use capi::Refusal;
use field::Word;

// Opening a run.
#[unsafe(no_mangle)]
pub extern "C" fn spdz_open_run(
    parties: usize,
    me: usize,
    c: &[Word],
    prep: &[Word],
    inputs: &[Word],
    l: &[Word],
    answer: &mut [u64],
) -> Refusal
    ensures returned { result
        ≡ returned (open_call (party_of parties me c.now prep.now inputs.now)
        l.now answer.old) }
    ensures answer { answer.new
        ≡ leave (open_call (party_of parties me c.now prep.now inputs.now) l.now answer.old)
        (overwrite (answer_numbers (open_answer ops (party_of parties me c.now prep.now inputs.now)
        l.now)) answer.old)
        answer.old }
{
    capi::spdz_open_run(parties, me, c, prep, inputs, l, answer)
}

// Sending: the words of the position's round, and the nonce that a commitment notes.
#[unsafe(no_mangle)]
pub extern "C" fn spdz_send(
    parties: usize,
    me: usize,
    c: &[Word],
    prep: &[Word],
    inputs: &[Word],
    l: &mut [Word],
    gate: usize,
    half: u32,
    round: u32,
    held: Word,
    coefficients: &[Word],
    nonce: &[u8],
    out: &mut [Word],
    answer: &mut [u64],
) -> Refusal
    ensures returned { result
        ≡ returned (send_call (party_of parties me c.now prep.now inputs.now)
        l.old (position_at gate half round held) coefficients.now nonce.now out.old answer.old) }
    ensures answer { answer.new
        ≡ leave (send_call (party_of parties me c.now prep.now inputs.now)
        l.old (position_at gate half round held) coefficients.now nonce.now out.old answer.old)
        (overwrite (answer_numbers (send_answer ops (party_of parties me c.now prep.now inputs.now)
        l.old (position_at gate half round held) coefficients.now nonce.now (length out.old))) answer.old)
        answer.old }
    ensures out { out.new
        ≡ leave (send_call (party_of parties me c.now prep.now inputs.now)
        l.old (position_at gate half round held) coefficients.now nonce.now out.old answer.old)
        (send_out ops (party_of parties me c.now prep.now inputs.now)
        l.old (position_at gate half round held) coefficients.now nonce.now out.old)
        out.old }
    ensures scratch { l.new
        ≡ leave (send_call (party_of parties me c.now prep.now inputs.now)
        l.old (position_at gate half round held) coefficients.now nonce.now out.old answer.old)
        (send_scratch ops (party_of parties me c.now prep.now inputs.now)
        l.old (position_at gate half round held) coefficients.now nonce.now (length out.old))
        l.old }
{
    capi::spdz_send(
        parties,
        me,
        c,
        prep,
        inputs,
        l,
        gate,
        half,
        round,
        held,
        coefficients,
        nonce,
        out,
        answer,
    )
}

// Receiving: what the words of all lead to.
#[unsafe(no_mangle)]
pub extern "C" fn spdz_receive(
    parties: usize,
    me: usize,
    c: &[Word],
    prep: &[Word],
    inputs: &[Word],
    l: &mut [Word],
    gate: usize,
    half: u32,
    round: u32,
    held: Word,
    heard: &[Word],
    answer: &mut [u64],
) -> Refusal
    ensures returned { result
        ≡ returned (receive_call (party_of parties me c.now prep.now inputs.now)
        l.old (position_at gate half round held) heard.now answer.old) }
    ensures answer { answer.new
        ≡ leave (receive_call (party_of parties me c.now prep.now inputs.now)
        l.old (position_at gate half round held) heard.now answer.old)
        (overwrite (answer_numbers (receive_answer ops (party_of parties me c.now prep.now inputs.now)
        l.old (position_at gate half round held) heard.now)) answer.old)
        answer.old }
    ensures scratch { l.new
        ≡ leave (receive_call (party_of parties me c.now prep.now inputs.now)
        l.old (position_at gate half round held) heard.now answer.old)
        (receive_scratch ops (party_of parties me c.now prep.now inputs.now)
        l.old (position_at gate half round held) heard.now)
        l.old }
{
    capi::spdz_receive(
        parties, me, c, prep, inputs, l, gate, half, round, held, heard, answer,
    )
}

// The joint run of all parties. Where its answer has no room, none of the outputs has: every circuit has one, so that nothing is run.
#[unsafe(no_mangle)]
pub extern "C" fn spdz_joint_run(
    parties: usize,
    c: &[Word],
    preps: &[Word],
    inputs: &[Word],
    l: &mut [Word],
    coefficients: &[Word],
    nonces: &[u8],
    transcript: &mut [Word],
    outputs: &mut [Word],
    answer: &mut [u64],
) -> Refusal
    ensures returned { result
        ≡ returned (joint_call (joint_of parties c.now preps.now inputs.now coefficients.now nonces.now)
        l.old transcript.old outputs.old answer.old) }
    ensures answer { answer.new
        ≡ leave (joint_call (joint_of parties c.now preps.now inputs.now coefficients.now nonces.now)
        l.old transcript.old outputs.old answer.old)
        (overwrite (joint_numbers (joint_answer ops (joint_of parties c.now preps.now inputs.now coefficients.now nonces.now)
        l.old transcript.old outputs.old)) answer.old)
        answer.old }
    ensures scratch { l.new
        ≡ leave (joint_call (joint_of parties c.now preps.now inputs.now coefficients.now nonces.now)
        l.old transcript.old outputs.old answer.old)
        (joint_scratch ops (joint_of parties c.now preps.now inputs.now coefficients.now nonces.now)
        l.old transcript.old outputs.old)
        l.old }
    ensures transcript { transcript.new
        ≡ leave (joint_call (joint_of parties c.now preps.now inputs.now coefficients.now nonces.now)
        l.old transcript.old outputs.old answer.old)
        (joint_transcript ops (joint_of parties c.now preps.now inputs.now coefficients.now nonces.now)
        l.old transcript.old outputs.old)
        transcript.old }
    ensures outputs { outputs.new
        ≡ leave (joint_call (joint_of parties c.now preps.now inputs.now coefficients.now nonces.now)
        l.old transcript.old outputs.old answer.old)
        (joint_outputs ops (joint_of parties c.now preps.now inputs.now coefficients.now nonces.now)
        l.old transcript.old outputs.old)
        outputs.old }
{
    capi::spdz_joint_run(
        parties,
        c,
        preps,
        inputs,
        l,
        coefficients,
        nonces,
        transcript,
        outputs,
        answer,
    )
}
