// Questions 3 to 7.
ghost use Rattle.std.specs.Prelude.{◌≡◌, true, ℕ, ◌+◌, ◌*◌, ◌<◌, ◌≤◌, length, IfOk, IfSome, OnSome};
ghost use Rattle.circuit.specs.Verdict.{each};
ghost use Rattle.circuit.specs.Gate.{gate_size, decode, entry, gate, gates};
ghost use Rattle.circuit.specs.Kind.{kind_shape, is_divisor};
ghost use Rattle.circuit.specs.Accept.{most_gates, is_kind, may_name, name_ok, rest_ok, ask_gate, ask_circuit};
ghost use Rattle.circuit.specs.Valid.{Fits, ValidGate};
ghost use Rattle.circuit.specs.Code.{role_of, shape_of};
ghost use Rattle.circuit.specs.Question.{verdict_of};
ghost use Rattle.gates.specs.Weight.{weight, weight_before};
ghost use Rattle.gates.specs.Code.{Counted};

use crate::{Survey, counting, reading};
use circuit::questions::{Question, Refusal, ask};
use circuit::{Role, Shape, shapes};
use field::Word;

// Numbers of a gate after its kind.
const OPERANDS: usize = 3;

// The index of a refusal that is about no gate.
const NO_GATE: usize = 0;

const FEWEST_GATES: usize = 2;

pub const MOST_GATES: usize = 256;

// May gate j name gate x? The gates before it have passed question 4.
#[tactic(auto, unfolding(circuit::specs::Accept::may_name, circuit::specs::Gate::gate, circuit::specs::Gate::entry))]
fn may_name(c: &[Word], j: usize, x: usize) -> bool
    requires { (gate_size * j ≤ length c.now) × ((i : ℕ) → i < j → is_kind (entry c.now i 0) ≡ true) }
    ensures { result ≡ may_name c.now j x }
{
    x < j && shapes::has_value(field::index(c[reading::GATE_SIZE * x]))
}

// Question 5 of one number.
#[tactic(auto, unfolding(circuit::specs::Accept::name_ok))]
fn name_ok(parties: usize, c: &[Word], j: usize, x: usize, role: Role) -> bool
    requires { (gate_size * j ≤ length c.now) × ((i : ℕ) → i < j → is_kind (entry c.now i 0) ≡ true) }
    ensures { result ≡ name_ok parties c.now j x (role_of role) }
{
    match role {
        Role::Party => x < parties,
        Role::Wire => may_name(c, j, x),
        Role::Unused | Role::Constant | Role::Divisor => true,
    }
}

// Question 6 of one number.
#[tactic(auto, unfolding(circuit::specs::Accept::rest_ok))]
fn rest_ok(size: usize, x: usize, role: Role) -> bool
    ensures { result ≡ rest_ok size x (role_of role) }
{
    match role {
        Role::Unused => x == 0,
        Role::Party | Role::Wire => true,
        Role::Constant => x < size,
        Role::Divisor => x != 0 && x < size,
    }
}

// Questions 4 to 6 of the first count gates: all three of one gate before the next, and of a gate question 5 of each of its numbers before
// question 6 of any.
fn scan(parties: usize, size: usize, c: &[Word], count: usize) -> Result<(), Refusal>
    requires { (gate_size * count ≤ length c.now) × (count ≤ most_gates) }
    ensures { verdict_of result ≡ each count (ask_gate parties size c.now) }
{
    for j in 0..count {
        let at = reading::GATE_SIZE * j;
        ask(Question::Kind, j, reading::is_kind(field::index(c[at])))?;
        let s = reading::shape_at(c, j);
        for k in 0..OPERANDS {
            let role = shapes::role_of(s, k + 1);
            let named = name_ok(parties, c, j, field::index(c[at + 1 + k]), role);
            ask(Question::Named, j, named)?;
        }
        for t in 0..OPERANDS {
            let role = shapes::role_of(s, t + 1);
            let fits = rest_ok(size, field::index(c[at + 1 + t]), role);
            ask(Question::Rest, j, fits)?;
        }
    }
    Ok(())
}

// Question 4 of a gate of that shape, whose kind is that number. A number that is no kind counts as out, so only an output is asked.
#[tactic(auto, using(crate::proofs::Well::not_out))]
fn kind_well(s: Shape, number: usize) -> bool
    requires { shape_of s ≡ kind_shape (decode number) }
    ensures { result ≡ is_kind number }
{
    !shapes::is_out(s.class) || reading::is_kind(number)
}

// Is a number of gate j what it is for? Questions 5 and 6 of it in one. No kind divides by its first number, so a divisor is left to the scan.
#[tactic(auto, using(crate::proofs::Well::named))]
fn number_well(parties: usize, size: usize, c: &[Word], j: usize, x: usize, role: Role) -> bool
    requires { (gate_size * j ≤ length c.now) × ((i : ℕ) → i < j → is_kind (entry c.now i 0) ≡ true) }
    ensures { result ≡ true → Fits parties size c.now j (role_of role) x }
{
    match role {
        Role::Unused => x == 0,
        Role::Party => x < parties,
        Role::Wire => may_name(c, j, x),
        Role::Constant => x < size,
        Role::Divisor => false,
    }
}

// Are the first and the last number of gate j what a shape says that they are for? A role that no kind gives its last number is left to the
// scan, and a gate that divides is not asked here.
fn ends_well(parties: usize, size: usize, c: &[Word], j: usize, s: Shape) -> bool
    requires { (gate_size * j + gate_size ≤ length c.now) × ((i : ℕ) → i < j → is_kind (entry c.now i 0) ≡ true) }
    ensures fits { result ≡ true → Fits parties size c.now j (role_of s.first) (gate c.now j).first }
    ensures fits_2 { result ≡ true → Fits parties size c.now j (role_of s.constant) (gate c.now j).constant }
{
    let first = reading::first_at(c, j);
    let constant = field::index(reading::constant_at(c, j));
    match s.constant {
        Role::Unused => constant == 0 && number_well(parties, size, c, j, first, s.first),
        Role::Constant => constant < size && number_well(parties, size, c, j, first, s.first),
        Role::Party | Role::Wire | Role::Divisor => false,
    }
}

// Are the numbers of gate j, which divides by its constant, what a shape says that they are for?
fn divided_well(parties: usize, size: usize, c: &[Word], j: usize, s: Shape) -> bool
    requires { (gate_size * j + gate_size ≤ length c.now)
        × ((i : ℕ) → i < j → is_kind (entry c.now i 0) ≡ true)
        × (is_divisor (role_of s.constant) ≡ true) }
    ensures fits { result ≡ true → Fits parties size c.now j (role_of s.first) (gate c.now j).first }
    ensures fits_2 { result ≡ true → Fits parties size c.now j (role_of s.second) (gate c.now j).second }
    ensures fits_3 { result ≡ true → Fits parties size c.now j (role_of s.constant) (gate c.now j).constant }
{
    let first = reading::first_at(c, j);
    let second = reading::second_at(c, j);
    let constant = field::index(reading::constant_at(c, j));
    constant != 0
        && constant < size
        && number_well(parties, size, c, j, second, s.second)
        && number_well(parties, size, c, j, first, s.first)
}

// Are the numbers of gate j, which does not divide, what a shape says that they are for? It parts the gates by the role of the second number
// and then by that of the last, so that few tests remain for each. A role that no kind gives its second number is left to the scan.
#[tactic(auto, using(crate::proofs::Well::named))]
fn numbers_well(parties: usize, size: usize, c: &[Word], j: usize, s: Shape) -> bool
    requires { (gate_size * j + gate_size ≤ length c.now) × ((i : ℕ) → i < j → is_kind (entry c.now i 0) ≡ true) }
    ensures fits { result ≡ true → Fits parties size c.now j (role_of s.first) (gate c.now j).first }
    ensures fits_2 { result ≡ true → Fits parties size c.now j (role_of s.second) (gate c.now j).second }
    ensures fits_3 { result ≡ true → Fits parties size c.now j (role_of s.constant) (gate c.now j).constant }
{
    let second = reading::second_at(c, j);
    match s.second {
        Role::Unused => second == 0 && ends_well(parties, size, c, j, s),
        Role::Party => second < parties && ends_well(parties, size, c, j, s),
        Role::Wire => may_name(c, j, second) && ends_well(parties, size, c, j, s),
        Role::Constant | Role::Divisor => false,
    }
}

// The weight of gate j for party me, if questions 4 to 6 of it are answered with yes. A gate that divides is asked by itself, which leaves the
// others as few tests as they had.
fn gate_well(parties: usize, size: usize, me: usize, c: &[Word], j: usize) -> Option<usize>
    requires { (gate_size * j + gate_size ≤ length c.now) × ((i : ℕ) → i < j → is_kind (entry c.now i 0) ≡ true) }
    ensures valid { OnSome result (ValidGate parties size c.now j) }
    ensures weight { IfSome result (λ w. w ≡ weight me (gate c.now j)) }
{
    let s = reading::shape_at(c, j);
    if !kind_well(s, field::index(c[reading::GATE_SIZE * j])) {
        return None;
    }
    let well = if shapes::is_divisor(s.constant) {
        divided_well(parties, size, c, j, s)
    } else {
        numbers_well(parties, size, c, j, s)
    };
    if well {
        Some(counting::weight_of(c, me, j, s))
    } else {
        None
    }
}

// The weight of the gates before to, if questions 4 to 6 of those from another on are answered with yes. What it does not say is left to the scan.
fn well(
    parties: usize,
    size: usize,
    me: usize,
    c: &[Word],
    from: usize,
    to: usize,
    start: usize,
) -> Option<usize>
    requires { (from ≤ to)
        × (gate_size * to ≤ length c.now)
        × (to ≤ most_gates)
        × ((i : ℕ) → i < from → ValidGate parties size c.now i)
        × (start ≡ weight_before c.now me from) }
    ensures valid { OnSome result ((i : ℕ) → i < to → ValidGate parties size c.now i) }
    ensures weight { IfSome result (λ w. w ≡ weight_before c.now me to) }
{
    let mut sum = start;
    for j in from..to {
        sum += gate_well(parties, size, me, c, j)?;
    }
    Some(sum)
}

// Questions 4 to 6 of the first count gates. Where the pass has said yes, no gate is looked at; the scan is for the first no.
fn ask_gates(
    parties: usize,
    size: usize,
    c: &[Word],
    count: usize,
    yes: bool,
) -> Result<(), Refusal>
    requires { (gate_size * count ≤ length c.now) × (count ≤ most_gates) × (yes ≡ true → (j : ℕ) → j < count → ValidGate parties size c.now j) }
    ensures { verdict_of result ≡ each count (ask_gate parties size c.now) }
{
    if yes {
        return Ok(());
    }
    scan(parties, size, c, count)
}

// Questions 3 to 7, where yes says that all gates are known to be valid.
#[tactic(auto, using(circuit::proofs::Verdicts::asked), unfolding(circuit::specs::Accept::ask_circuit, circuit::specs::Accept::ask_size, circuit::specs::Accept::ask_last, circuit::specs::Gate::gates))]
fn ask_all(parties: usize, size: usize, c: &[Word], yes: bool) -> Result<(), Refusal>
    requires { yes ≡ true → (j : ℕ) → j < gates c.now → ValidGate parties size c.now j }
    ensures { verdict_of result ≡ ask_circuit parties size c.now }
{
    let count = c.len() / reading::GATE_SIZE;
    let whole = c.len() % reading::GATE_SIZE == 0;
    let fits = whole && FEWEST_GATES <= count && count <= MOST_GATES;
    ask(Question::CircuitSize, NO_GATE, fits)?;
    ask_gates(parties, size, c, count, yes)?;
    let ends = shapes::is_out(reading::class_at(c, count - 1));
    ask(Question::Last, NO_GATE, ends)
}

// Questions 4 to 6 of all gates, and what is counted before a gate and in all, in one pass. Where it finds nothing, the scan is asked.
fn one_pass(parties: usize, size: usize, me: usize, c: &[Word], gate: usize) -> Option<Survey>
    ensures { IfSome result (λ s. ((j : ℕ) → j < gates c.now → ValidGate parties size c.now j) × Counted c.now me gate s.here s.all) }
{
    let count = c.len() / reading::GATE_SIZE;
    if MOST_GATES < count {
        return None;
    }
    let stop = gate.min(count);
    let here = well(parties, size, me, c, 0, stop, 0)?;
    let all = well(parties, size, me, c, stop, count, here)?;
    Some(Survey {
        here: counting::tally_of(here, counting::unchecked_before(c, stop)),
        all: counting::tally_of(all, counting::unchecked_before(c, count)),
    })
}

// Are all gates known to be valid?
#[tactic(auto, unfolding(circuit::specs::Gate::gates))]
fn all_well(parties: usize, size: usize, c: &[Word]) -> bool
    ensures { result ≡ true → (j : ℕ) → j < gates c.now → ValidGate parties size c.now j }
{
    let count = c.len() / reading::GATE_SIZE;
    count <= MOST_GATES && well(parties, size, 0, c, 0, count, 0).is_some()
}

// Questions 3 to 7, of a field of that size. It is no entry: it is for the crates above, which ask question 1 before it.
pub fn accept(parties: usize, size: usize, c: &[Word]) -> Result<(), Refusal>
    ensures { verdict_of result ≡ ask_circuit parties size c.now }
{
    let yes = all_well(parties, size, c);
    ask_all(parties, size, c, yes)
}

// The counts of an accepted circuit of which the pass has found nothing.
fn counted(c: &[Word], me: usize, gate: usize) -> Survey
    requires { gates c.now ≤ most_gates }
    ensures { Counted c.now me gate result.here result.all }
{
    let count = c.len() / reading::GATE_SIZE;
    let stop = gate.min(count);
    let here = counting::tally_between(c, me, 0, stop, circuit::counting::no_tally());
    let all = counting::tally_between(c, me, stop, count, here);
    Survey { here, all }
}

// Questions 3 to 7, with what is counted for party me before a gate and in all.
pub fn survey(
    parties: usize,
    size: usize,
    me: usize,
    c: &[Word],
    gate: usize,
) -> Result<Survey, Refusal>
    ensures asked { verdict_of result ≡ ask_circuit parties size c.now }
    ensures accepted { IfOk result (λ s. Counted c.now me gate s.here s.all) }
{
    let found = one_pass(parties, size, me, c, gate);
    ask_all(parties, size, c, found.is_some())?;
    match found {
        Some(counts) => Ok(counts),
        None => Ok(counted(c, me, gate)),
    }
}
