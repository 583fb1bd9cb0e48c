// What is counted along a circuit.
ghost use Rattle.std.specs.Prelude.{◌≡◌, ℕ, ◌+◌, ◌*◌, ◌<◌, ◌≤◌, List, length};
ghost use Rattle.circuit.specs.Gate.{gate_size, gate};
ghost use Rattle.circuit.specs.Kind.{shape};
ghost use Rattle.circuit.specs.Count.{unchecked};
ghost use Rattle.circuit.specs.Accept.{most_gates};
ghost use Rattle.circuit.specs.Code.{shape_of, Tallied, Totalled};
ghost use Rattle.gates.specs.Weight.{weight, weight_before};

use crate::reading;
use circuit::{Class, Shape, Tally, Totals, counting, shapes};
use field::Word;

// The count of party i goes on by gate j: what changes is told by its class. A linear gate counts nothing.
pub fn tally_gate(c: &[Word], i: usize, j: usize, t: Tally) -> Tally
    requires { (gate_size * j + gate_size ≤ length c.now) × (j < most_gates) × Tallied c.now i j t }
    ensures { Tallied c.now i (j + 1) result }
{
    let s = reading::shape_at(c, j);
    match s.class {
        Class::Local => t,
        Class::Owned => Tally {
            prep: t.prep + s.prep,
            openings: t.openings,
            unchecked: t.unchecked,
            inputs: t.inputs + counting::one_if(reading::first_at(c, j) == i),
        },
        Class::Opens => Tally {
            prep: t.prep + s.prep,
            openings: t.openings + s.openings,
            unchecked: t.unchecked + s.openings,
            inputs: t.inputs,
        },
        Class::Output => Tally {
            prep: t.prep + s.prep,
            openings: t.openings,
            unchecked: 0,
            inputs: t.inputs,
        },
    }
}

// The count of party i goes on from one gate to another.
pub fn tally_between(c: &[Word], i: usize, from: usize, to: usize, start: Tally) -> Tally
    requires { (from ≤ to) × (gate_size * to ≤ length c.now) × (to ≤ most_gates) × Tallied c.now i from start }
    ensures { Tallied c.now i to result }
{
    let mut t = start;
    for j in from..to {
        t = tally_gate(c, i, j, t);
    }
    t
}

// The totals go on by gate j, which has that shape and before which that many entries wait for a check. A linear gate counts nothing.
fn total_gate(c: &[Word], j: usize, s: Shape, waiting: usize, t: Totals) -> Totals
    requires { (shape_of s ≡ shape (gate c.now j)) × (j < most_gates) × (waiting ≡ unchecked c.now j) × Totalled c.now j t }
    ensures { Totalled c.now (j + 1) result }
{
    if shapes::is_linear(s.class) {
        return t;
    }
    Totals {
        prep: t.prep + s.prep,
        openings: t.openings + s.openings,
        ins: t.ins + counting::one_if(shapes::is_in(s.class)),
        outs: t.outs + counting::one_if(shapes::is_out(s.class)),
        words: t.words + counting::words_of(s, waiting),
        coefficients: t.coefficients + counting::coefficients_of(s, waiting),
        checks: t.checks + counting::checks_of(s, waiting),
    }
}

// What a run of the first count gates takes.
pub fn totals_before(c: &[Word], count: usize) -> Totals
    requires { (gate_size * count ≤ length c.now) × (count ≤ most_gates) }
    ensures { Totalled c.now count result }
{
    let mut t = Totals {
        prep: 1,
        openings: 0,
        ins: 0,
        outs: 0,
        words: 0,
        coefficients: 0,
        checks: 0,
    };
    let mut waiting = 0;
    for j in 0..count {
        let s = reading::shape_at(c, j);
        t = total_gate(c, j, s, waiting, t);
        waiting = counting::unchecked_after(s, waiting);
    }
    t
}

// What an opened value counts in a weight, where a number of the preprocessing counts 1.
const OPENING: usize = 65536;

// And an input of the party.
const INPUT: usize = 4294967296;

// The weight of gate j, which has that shape, for party i.
pub fn weight_of(c: &[Word], i: usize, j: usize, s: Shape) -> usize
    requires { (gate_size * j + gate_size ≤ length c.now) × (shape_of s ≡ shape (gate c.now j)) }
    ensures { result ≡ weight i (gate c.now j) }
{
    let parts = s.prep + OPENING * s.openings;
    if shapes::is_in(s.class) && reading::first_at(c, j) == i {
        parts + INPUT
    } else {
        parts
    }
}

// How many opened values wait for a check before gate j: the gates since the last output are gone through from behind.
pub fn unchecked_before(c: &[Word], j: usize) -> usize
    requires { (gate_size * j ≤ length c.now) × (j ≤ most_gates) }
    ensures { result ≡ unchecked c.now j }
{
    let mut waiting = 0;
    let mut i = j;
    while 0 < i {
        let s = reading::shape_at(c, i - 1);
        if shapes::is_out(s.class) {
            return waiting;
        }
        waiting += s.openings;
        i -= 1;
    }
    waiting
}

// What is counted of gates of that weight, after which that many opened values wait.
pub fn tally_of(sum: usize, waiting: usize) -> Tally
    ensures { (c : List ℕ) (i j : ℕ) → j ≤ most_gates → sum ≡ weight_before c i j → waiting ≡ unchecked c j → Tallied c i j result }
{
    Tally {
        prep: 1 + sum % OPENING,
        openings: sum / OPENING % OPENING,
        unchecked: waiting,
        inputs: sum / INPUT,
    }
}
