// One party: its questions and its three entries.
#![tactic(auto)]

pub mod asking;

ghost use Rattle.std.specs.Prelude.{◌≡◌, true, cond, Some, None, ◌&&◌, ◌+◌, ◌*◌, ◌<◌, ◌≤◌, length, drop};
ghost use Rattle.field.specs.Words.{size, ops};
ghost use Rattle.circuit.specs.Gate.{gate_size, gate};
ghost use Rattle.circuit.specs.Kind.{is_give, seen_by, alone};
ghost use Rattle.circuit.specs.Code.{round_of};
ghost use Rattle.protocol.specs.Position.{keep};
ghost use Rattle.protocol.specs.Party.{party_of};
ghost use Rattle.protocol.specs.Scratch.{slots_size};
ghost use Rattle.protocol.specs.Receive.{score};
ghost use Rattle.protocol.specs.Holding.{Below, Opened};
ghost use Rattle.protocol.specs.Code.{layout_of, point_of, ruling_of};
ghost use Rattle.protocol.specs.Entry.{releases, open_answer, send_answer, send_out, send_scratch, receive_answer, receive_scratch};
ghost use Rattle.party.specs.Code.{position_of, answer_of, outcome_is, leads_to};

use circuit::Round;
use circuit::questions::Refusal;
use field::Word;
use protocol::{Blame, Layout, Site, Stage};
use steps::{Conclusion, receiving, sending};

// The slots of one sort. A closure from numbers to slots in its place would have to promise that they stand side by side.
#[derive(Clone, Copy)]
pub enum Sort {
    Shares,
    Macs,
    Values,
    ValueMacs,
}

// Where a party stands: the check share is 0 unless a commitment is sent and its reveal is not.
#[derive(Clone, Copy)]
pub struct Position {
    pub gate: usize,
    pub stage: Stage,
    pub held: Word,
}

// What an entry that is not refused answers. An abort names a party, or nobody.
#[derive(Clone, Copy)]
pub enum Outcome {
    Next(Position),
    Output(Word, Position),
    Abort(Blame, Position),
}

// What questions 1 to 12, or 1 to 13, give where they accept: the layout of the scratch and the site of a gate.
#[derive(Clone, Copy)]
pub struct Lent {
    pub layout: Layout,
    pub site: Site,
}

// What all questions of a sending or a receiving give where they accept: what the step needs.
#[derive(Clone, Copy)]
pub struct Asked {
    pub layout: Layout,
    pub site: Site,
    pub round: Round,
}

// Opening a run: the position at which it starts.
pub fn open_run(
    parties: usize,
    me: usize,
    c: &[Word],
    prep: &[Word],
    inputs: &[Word],
    l: &[Word],
) -> Result<Outcome, Refusal>
    ensures { answer_of result
        ≡ open_answer ops (party_of parties me c.now prep.now inputs.now) l.now }
{
    asking::ask_lent(parties, me, c, prep, inputs, l, 0)?;
    let start = Position {
        gate: 0,
        stage: Stage::Send(Round::Own),
        held: 0,
    };
    Ok(Outcome::Next(start))
}

// Sending: the words of the position's round, and the position to receive at. A commitment notes its nonce in the scratch.
pub fn send(
    parties: usize,
    me: usize,
    c: &[Word],
    prep: &[Word],
    inputs: &[Word],
    l: &mut [Word],
    at: Position,
    coefficients: &[Word],
    nonce: &[u8],
    out: &mut [Word],
) -> Result<Outcome, Refusal>
    ensures answer { answer_of result
        ≡ send_answer ops (party_of parties me c.now prep.now inputs.now)
        l.old (position_of at) coefficients.now nonce.now (length out.old) }
    ensures out { out.new
        ≡ send_out ops (party_of parties me c.now prep.now inputs.now)
        l.old (position_of at) coefficients.now nonce.now out.old }
    ensures scratch { l.new
        ≡ send_scratch ops (party_of parties me c.now prep.now inputs.now)
        l.old (position_of at) coefficients.now nonce.now (length out.old) }
{
    let Asked {
        layout,
        site,
        round,
    } = asking::ask_send(
        parties,
        me,
        c,
        prep,
        inputs,
        l,
        at,
        coefficients,
        nonce,
        out.len(),
    )?;
    let held = sending::send_step(
        parties,
        me,
        c,
        prep,
        inputs,
        l,
        layout,
        site,
        round,
        at.held,
        coefficients,
        nonce,
        out,
    );
    Ok(Outcome::Next(Position {
        gate: at.gate,
        stage: Stage::Receive(round),
        held,
    }))
}

// Receiving: what the words of all lead to.
pub fn receive(
    parties: usize,
    me: usize,
    c: &[Word],
    prep: &[Word],
    inputs: &[Word],
    l: &mut [Word],
    at: Position,
    heard: &[Word],
) -> Result<Outcome, Refusal>
    ensures answer { answer_of result
        ≡ receive_answer ops (party_of parties me c.now prep.now inputs.now)
        l.old (position_of at) heard.now }
    ensures scratch { l.new
        ≡ receive_scratch ops (party_of parties me c.now prep.now inputs.now)
        l.old (position_of at) heard.now }
{
    let Asked {
        layout,
        site,
        round,
    } = asking::ask_receive(parties, me, c, prep, inputs, l, at, heard)?;
    let told = is_told(me, c, site.gate, round);
    let output = output_at(told, c, prep, l, layout, site.gate, site.prep);
    let x = receiving::receive_step(parties, me, c, prep, inputs, l, layout, site, round, heard);
    Ok(outcome_of(round, at.held, output, x))
}

// Does round r of gate j release a score to this party, once it passes?
fn is_told(me: usize, c: &[Word], j: usize, r: Round) -> bool
    requires { gate_size * j + gate_size ≤ length c.now }
    ensures { result ≡ (releases (round_of r) && seen_by (alone me) (gate c.now j)) }
{
    protocol::releases(r) && gates::reading::is_seen_by(c, j, me)
}

// The score of gate j where it is told, which then is an output whose record stands at number start of the preprocessing.
fn output_at(
    told: bool,
    c: &[Word],
    prep: &[Word],
    l: &[Word],
    y: Layout,
    j: usize,
    start: usize,
) -> Option<Word>
    requires { told ≡ true → (gate_size * j + gate_size ≤ length c.now)
        × (start ≤ length prep.now)
        × (is_give (gate c.now j) ≡ true → start + 2 < length prep.now)
        × Below size prep.now
        × (slots_size (layout_of y) ≤ length l.now)
        × Opened size (layout_of y) l.now 0 }
    ensures { result ≡ cond told (Some (score ops (layout_of y) l.now (is_give (gate c.now j)) (drop start prep.now))) None }
{
    if told {
        Some(receiving::score_at(c, prep, l, y, j, start))
    } else {
        None
    }
}

// What a round that is received leads to, where it releases that output if it passes.
#[tactic(auto, unfolding(crate::specs::Code::outcome_is, crate::specs::Code::leads_to, crate::specs::Code::position_of, protocol::specs::Code::point_of, protocol::specs::Code::ruling_of, protocol::specs::Position::holding))]
fn outcome_of(r: Round, held: Word, output: Option<Word>, x: Conclusion) -> Outcome
    ensures { outcome_is result ≡ leads_to (round_of r) held output (ruling_of x.ruling) (point_of x.point) }
{
    let at = Position {
        gate: x.point.gate,
        stage: x.point.stage,
        held: keep_held(r, held),
    };
    match x.ruling {
        Err(blame) => Outcome::Abort(blame, at),
        Ok(()) => match output {
            Some(word) => Outcome::Output(word, at),
            None => Outcome::Next(at),
        },
    }
}

// The check share that stays held.
#[tactic(auto, unfolding(protocol::specs::Position::keep))]
fn keep_held(r: Round, held: Word) -> Word
    ensures { result ≡ keep (round_of r) held }
{
    if circuit::rounds::is_commit(r) {
        held
    } else {
        0
    }
}
