// The questions at a party's entries.
ghost use Rattle.std.specs.Prelude.{◌≡◌, ◌↔◌, true, cond, ℕ, ◌+◌, ◌*◌, ◌<◌, ◌≤◌, length, get_or, position, ltb, leb, eqb, IfOk};
ghost use Rattle.field.specs.Words.{size};
ghost use Rattle.circuit.specs.Verdict.{ask, ◌then◌, each, elements};
ghost use Rattle.circuit.specs.Question.{number_of, verdict_of};
ghost use Rattle.circuit.specs.Gate.{gate_size, gates};
ghost use Rattle.circuit.specs.Count.{unchecked};
ghost use Rattle.circuit.specs.Accept.{ask_circuit};
ghost use Rattle.circuit.specs.Round.{is_reveal, reveal_words, coefficients_in, nonce_in};
ghost use Rattle.circuit.specs.Code.{round_of};
ghost use Rattle.protocol.specs.Scratch.{layout, offset};
ghost use Rattle.protocol.specs.Position.{may_hold, stage_occurs, occurs};
ghost use Rattle.protocol.specs.Party.{party_of};
ghost use Rattle.protocol.specs.Holding.{Within};
ghost use Rattle.protocol.specs.Code.{slot_of, stage_of};
ghost use Rattle.protocol.specs.Ask.{ask_parties, slot_question, ask_slots, ask_worked, ask_heard, ask_send_round, ask_receive_round, ask_lent, ask_send, ask_receive};
ghost use Rattle.party.specs.Code.{sort_of, wanted_of, position_of, Laid, Posed, LentTo, place_of, RoundAt, Sendable, Receivable};

use crate::{Asked, Lent, Position, Sort};
use circuit::questions::{Question, Refusal, ask};
use circuit::{Check, Round, Shape, rounds, shapes};
use field::Word;
use gates::reading;
use protocol::{Layout, Site, Slot, Stage};

const FEWEST_PARTIES: usize = 2;

const MOST_PARTIES: usize = 8;

// Question 1.
#[tactic(auto, unfolding(protocol::specs::Ask::ask_parties))]
pub fn ask_parties(parties: usize) -> Result<(), Refusal>
    ensures { verdict_of result ≡ ask_parties parties }
{
    ask(
        Question::Parties,
        0,
        FEWEST_PARTIES <= parties && parties <= MOST_PARTIES,
    )
}

// Are all numbers of a list elements? There is no exit on the way, so that several numbers are asked at a time.
fn all_elements(xs: &[Word]) -> bool
    ensures { (result ≡ true) ↔ ((k : ℕ) → k < length xs.now → get_or xs.now k 0 < size) }
{
    let mut all = true;
    for x in xs {
        if field::SIZE <= *x {
            all = false;
        }
    }
    all
}

// Where the first number of a list stands that is no element.
fn no_element(xs: &[Word]) -> Option<usize>
    ensures { result ≡ position (leb size) xs.now }
{
    xs.iter().position(|x| field::SIZE <= *x)
}

// Are the numbers of a list elements? The index of one that is not is looked for only if there is one.
pub fn ask_elements(question: Question, xs: &[Word]) -> Result<(), Refusal>
    ensures { verdict_of result ≡ elements (number_of question) size xs.now }
{
    if all_elements(xs) {
        return Ok(());
    }
    match no_element(xs) {
        Some(index) => Err(Refusal { question, index }),
        None => Ok(()),
    }
}

// Question 20 of a reveal: of the check shares of so many parties, each the first of its words.
#[tactic(auto, using(crate::proofs::Loops::asked_each))]
fn ask_shares(parties: usize, heard: &[Word]) -> Result<(), Refusal>
    requires { parties * reveal_words ≤ length heard.now }
    ensures { verdict_of result
        ≡ each parties (λ i. ask 20 (i * reveal_words) (ltb (get_or heard.now (i * reveal_words) 0) size)) }
{
    for i in 0..parties {
        let share = i * rounds::REVEAL_WORDS;
        ask(Question::Heard, share, heard[share] < field::SIZE)?;
    }
    Ok(())
}

// Question 20, by the round.
fn ask_heard(parties: usize, r: Round, heard: &[Word]) -> Result<(), Refusal>
    requires { is_reveal (round_of r) ≡ true → parties * reveal_words ≤ length heard.now }
    ensures { verdict_of result ≡ ask_heard size parties (round_of r) heard.now }
{
    match r {
        Round::Own | Round::Open => ask_elements(Question::Heard, heard),
        Round::Commit(_) => Ok(()),
        Round::Reveal(_) => ask_shares(parties, heard),
    }
}

// Questions 8 to 12, of the lengths that the circuit asks for.
#[tactic(auto, using(circuit::proofs::Verdicts::asked))]
pub fn ask_lists(
    prep: &[Word],
    prep_size: usize,
    inputs: &[Word],
    input_count: usize,
    room: usize,
    scratch_size: usize,
) -> Result<(), Refusal>
    ensures { verdict_of result
        ≡ (ask 8 0 (eqb (length prep.now) prep_size)
        then elements 9 size prep.now
        then ask 10 0 (eqb (length inputs.now) input_count)
        then elements 11 size inputs.now
        then ask 12 0 (leb scratch_size room)) }
{
    ask(Question::PrepSize, 0, prep.len() == prep_size)?;
    ask_elements(Question::Prep, prep)?;
    ask(Question::InputCount, 0, inputs.len() == input_count)?;
    ask_elements(Question::Inputs, inputs)?;
    ask(Question::ScratchSize, 0, scratch_size <= room)
}

// Questions 3 to 7, of the field of this crate.
pub fn ask_circuit(parties: usize, c: &[Word]) -> Result<(), Refusal>
    ensures { verdict_of result ≡ ask_circuit parties size c.now }
{
    gates::asking::accept(parties, field::index(field::SIZE), c)
}

// Questions 1 and 3 to 7: what is asked where no party calls.
#[tactic(auto, using(circuit::proofs::Verdicts::asked))]
pub fn ask_setting(parties: usize, c: &[Word]) -> Result<(), Refusal>
    ensures { verdict_of result ≡ (ask_parties parties then ask_circuit parties size c.now) }
{
    ask_parties(parties)?;
    ask_circuit(parties, c)
}

// May a check share be held at this stage?
#[tactic(auto, unfolding(protocol::specs::Position::may_hold))]
fn may_hold(stage: Stage) -> bool
    ensures { result ≡ may_hold (stage_of stage) }
{
    match stage {
        Stage::Send(r) => rounds::is_reveal(r),
        Stage::Receive(r) => rounds::is_commit(r),
        Stage::Finished | Stage::Aborted => false,
    }
}

// Can the stage occur at gate j? The circuit has count gates, and before gate j that many entries are unchecked.
fn stage_occurs(c: &[Word], count: usize, j: usize, waiting: usize, stage: Stage) -> bool
    requires { (gate_size * count ≤ length c.now) × (count ≡ gates c.now) × (j < count) × (waiting ≡ unchecked c.now j) }
    ensures { result ≡ stage_occurs c.now j (stage_of stage) }
{
    let class = reading::class_at(c, j);
    match stage {
        Stage::Send(r) | Stage::Receive(r) => rounds::has_round(class, waiting, r),
        Stage::Finished => j + 1 == count,
        Stage::Aborted => rounds::has_round(class, waiting, Round::Reveal(Check::Second)),
    }
}

// Is the check share 0, or an element where one may be held?
fn is_held_well(at: Position) -> bool
    ensures { result ≡ cond (may_hold (stage_of at.stage)) (ltb at.held size) (eqb at.held 0) }
{
    if may_hold(at.stage) {
        at.held < field::SIZE
    } else {
        at.held == 0
    }
}

// Question 13.
fn can_occur(c: &[Word], count: usize, waiting: usize, at: Position) -> bool
    requires { (gate_size * count ≤ length c.now) × (count ≡ gates c.now) × (at.gate < count → waiting ≡ unchecked c.now at.gate) }
    ensures { result ≡ occurs size c.now (position_of at) }
{
    at.gate < count && stage_occurs(c, count, at.gate, waiting, at.stage) && is_held_well(at)
}

impl Sort {
    // Slot k of the sort.
    #[tactic(auto, unfolding(crate::specs::Code::sort_of))]
    fn slot(self, k: usize) -> Slot
        ensures { slot_of result ≡ sort_of self k }
    {
        match self {
            Sort::Shares => Slot::Share(k),
            Sort::Macs => Slot::Mac(k),
            Sort::Values => Slot::Value(k),
            Sort::ValueMacs => Slot::ValueMac(k),
        }
    }
}

// A circuit, the scratch of a party's run of it, and the layout by which that scratch is laid.
#[derive(Clone, Copy)]
struct Scratch<'a> {
    circuit: &'a [Word],
    words: &'a [Word],
    layout: Layout,
    ghost laid: { Laid circuit.now words.now layout },
}

impl Scratch<'_> {
    // Where slot t of a sort stands.
    fn offset(&self, sort: Sort, t: usize) -> usize
        requires { Within (layout self.now.circuit.now) (sort_of sort t) }
        ensures { (result ≡ offset (layout self.now.circuit.now) (sort_of sort t)) × (result < length self.now.words.now) }
    {
        protocol::offset_of(self.layout, sort.slot(t))
    }

    // Does question 15 want slot t of a sort?
    #[tactic(auto, unfolding(crate::specs::Code::wanted_of, crate::specs::Code::sort_of, protocol::specs::Scratch::layout))]
    fn is_wanted(&self, sort: Sort, t: usize) -> bool
        requires { Within (layout self.now.circuit.now) (sort_of sort t) }
        ensures { result ≡ wanted_of self.now.circuit.now sort t }
    {
        match sort {
            Sort::Shares | Sort::Macs => !shapes::is_out(reading::class_at(self.circuit, t)),
            Sort::Values | Sort::ValueMacs => true,
        }
    }

    // Question 15 of one slot. Whether it is wanted is asked only if its number is no element.
    fn ask_slot(&self, sort: Sort, t: usize) -> Result<(), Refusal>
        requires { Within (layout self.now.circuit.now) (sort_of sort t) }
        ensures { verdict_of result ≡ slot_question size self.now.circuit.now self.now.words.now (wanted_of self.now.circuit.now sort t) (sort_of sort t) }
    {
        let at = self.offset(sort, t);
        ask(
            Question::Scratch,
            at,
            self.words[at] < field::SIZE || !self.is_wanted(sort, t),
        )
    }

    // Question 15 of the slots of one sort below k, which stand side by side. Where all their numbers are elements, none is looked at alone.
    #[tactic(auto, using(crate::proofs::Loops::asked_each), unfolding(protocol::specs::Ask::ask_slots))]
    fn ask_slots(&self, k: usize, sort: Sort) -> Result<(), Refusal>
        requires { (t : ℕ) → t < k → Within (layout self.now.circuit.now) (sort_of sort t) }
        ensures { verdict_of result ≡ ask_slots size self.now.circuit.now self.now.words.now k (wanted_of self.now.circuit.now sort) (sort_of sort) }
    {
        if k == 0 {
            return Ok(());
        }
        let from = self.offset(sort, 0);
        let to = from + k;
        if all_elements(&self.words[from..to]) {
            return Ok(());
        }
        for t in 0..k {
            self.ask_slot(sort, t)?;
        }
        Ok(())
    }

    // Question 15: the gates before that of the site, and the opened entries that are not yet checked.
    #[tactic(auto, using(circuit::proofs::Verdicts::asked), unfolding(protocol::specs::Ask::ask_worked, crate::specs::Code::wanted_of, crate::specs::Code::sort_of))]
    fn ask_worked(&self, at: Site, r: Round) -> Result<(), Refusal>
        requires { Posed self.now.circuit.now at (round_of r) }
        ensures { verdict_of result ≡ ask_worked size self.now.circuit.now self.now.words.now at.gate (round_of r) }
    {
        let opened = rounds::opened_in(at.unchecked, r);
        self.ask_slots(at.gate, Sort::Shares)?;
        self.ask_slots(at.gate, Sort::Macs)?;
        self.ask_slots(opened, Sort::Values)?;
        self.ask_slots(opened, Sort::ValueMacs)
    }
}

// Questions 15 to 18, and 25 before the last.
#[tactic(auto, using(circuit::proofs::Verdicts::asked), unfolding(protocol::specs::Ask::ask_send_round))]
fn ask_send_round(
    scratch: &Scratch<'_>,
    at: Site,
    r: Round,
    coefficients: &[Word],
    nonce: &[u8],
    room: usize,
) -> Result<(), Refusal>
    requires { Posed scratch.now.circuit.now at (round_of r) }
    ensures { verdict_of result ≡ ask_send_round size scratch.now.circuit.now scratch.now.words.now at.gate coefficients.now nonce.now room (round_of r) }
{
    scratch.ask_worked(at, r)?;
    ask(
        Question::CoefficientCount,
        0,
        coefficients.len() == rounds::coefficients_in(at.unchecked, r),
    )?;
    ask_elements(Question::Coefficients, coefficients)?;
    ask(Question::Nonce, 0, nonce.len() == rounds::nonce_in(r))?;
    let words = rounds::words_in(reading::shape_at(scratch.circuit, at.gate), r);
    ask(Question::Room, 0, words <= room)
}

// Questions 15, 19 and 20.
#[tactic(auto, using(circuit::proofs::Verdicts::asked), unfolding(protocol::specs::Ask::ask_receive_round))]
fn ask_receive_round(
    parties: usize,
    scratch: &Scratch<'_>,
    at: Site,
    r: Round,
    heard: &[Word],
) -> Result<(), Refusal>
    requires { Posed scratch.now.circuit.now at (round_of r) × (parties ≤ 8) }
    ensures { verdict_of result ≡ ask_receive_round size scratch.now.circuit.now parties scratch.now.words.now at.gate heard.now (round_of r) }
{
    scratch.ask_worked(at, r)?;
    let words = rounds::words_in(reading::shape_at(scratch.circuit, at.gate), r);
    ask(Question::HeardSize, 0, heard.len() == parties * words)?;
    ask_heard(parties, r, heard)
}

// Questions 1 to 12. One count along the circuit gives the lengths to ask for and the site of a gate.
#[tactic(auto, using(circuit::proofs::Verdicts::asked), unfolding(protocol::specs::Ask::ask_lent))]
pub fn ask_lent(
    parties: usize,
    me: usize,
    c: &[Word],
    prep: &[Word],
    inputs: &[Word],
    l: &[Word],
    gate: usize,
) -> Result<Lent, Refusal>
    ensures asked { verdict_of result ≡ ask_lent size (party_of parties me c.now prep.now inputs.now) l.now }
    ensures accepted { IfOk result (λ x. LentTo (party_of parties me c.now prep.now inputs.now) l.now x.layout x.site gate) }
{
    ask_parties(parties)?;
    ask(Question::Party, 0, me < parties)?;
    let survey = gates::asking::survey(parties, field::index(field::SIZE), me, c, gate)?;
    let layout = Layout {
        gates: c.len() / reading::GATE_SIZE,
        capacity: survey.all.openings + 1,
    };
    let size = protocol::size_of(parties, layout);
    ask_lists(
        prep,
        survey.all.prep,
        inputs,
        survey.all.inputs,
        l.len(),
        size,
    )?;
    Ok(Lent {
        layout,
        site: Site {
            gate,
            prep: survey.here.prep,
            unchecked: survey.here.unchecked,
            input: survey.here.inputs,
        },
    })
}

// Questions 1 to 13.
#[tactic(auto, using(circuit::proofs::Verdicts::asked), unfolding(crate::specs::Code::place_of))]
fn ask_place(
    parties: usize,
    me: usize,
    c: &[Word],
    prep: &[Word],
    inputs: &[Word],
    l: &[Word],
    at: Position,
) -> Result<Lent, Refusal>
    ensures asked { verdict_of result
        ≡ place_of (party_of parties me c.now prep.now inputs.now) l.now (position_of at) }
    ensures accepted { IfOk result (λ x. RoundAt (party_of parties me c.now prep.now inputs.now) l.now x.layout x.site at) }
{
    let lent = ask_lent(parties, me, c, prep, inputs, l, at.gate)?;
    let can = can_occur(c, lent.layout.gates, lent.site.unchecked, at);
    ask(Question::Position, 0, can)?;
    Ok(lent)
}

// All questions of sending. Nothing is written, so that a caller can learn what they come to before anything is.
pub fn ask_send(
    parties: usize,
    me: usize,
    c: &[Word],
    prep: &[Word],
    inputs: &[Word],
    l: &[Word],
    at: Position,
    coefficients: &[Word],
    nonce: &[u8],
    room: usize,
) -> Result<Asked, Refusal>
    ensures asked { verdict_of result
        ≡ ask_send size (party_of parties me c.now prep.now inputs.now)
        l.now (position_of at) coefficients.now nonce.now room }
    ensures accepted { IfOk result (λ x. Sendable (party_of parties me c.now prep.now inputs.now)
        l.now at coefficients.now nonce.now room x.layout x.site (round_of x.round)) }
{
    let Lent { layout, site } = ask_place(parties, me, c, prep, inputs, l, at)?;
    let Stage::Send(round) = at.stage else {
        return Err(Refusal {
            question: Question::Half,
            index: 0,
        });
    };
    let scratch = Scratch {
        circuit: c,
        words: l,
        layout,
    };
    ask_send_round(&scratch, site, round, coefficients, nonce, room)?;
    Ok(Asked {
        layout,
        site,
        round,
    })
}

// All questions of receiving, likewise. One function for both would be told the half and the questions of its round, which are all that differs.
pub fn ask_receive(
    parties: usize,
    me: usize,
    c: &[Word],
    prep: &[Word],
    inputs: &[Word],
    l: &[Word],
    at: Position,
    heard: &[Word],
) -> Result<Asked, Refusal>
    ensures asked { verdict_of result
        ≡ ask_receive size (party_of parties me c.now prep.now inputs.now)
        l.now (position_of at) heard.now }
    ensures accepted { IfOk result (λ x. Receivable (party_of parties me c.now prep.now inputs.now)
        l.now at heard.now x.layout x.site (round_of x.round)) }
{
    let Lent { layout, site } = ask_place(parties, me, c, prep, inputs, l, at)?;
    let Stage::Receive(round) = at.stage else {
        return Err(Refusal {
            question: Question::Half,
            index: 0,
        });
    };
    let scratch = Scratch {
        circuit: c,
        words: l,
        layout,
    };
    ask_receive_round(parties, &scratch, site, round, heard)?;
    Ok(Asked {
        layout,
        site,
        round,
    })
}
