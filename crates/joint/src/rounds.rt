// The rounds of a run, gate by gate: in each, every party sends, and then every party receives the words of all. Nothing is asked here:
// what is needed is what the entry has asked.
ghost use Rattle.std.specs.Prelude.{◌≡◌, suc, ◌+◌, ◌*◌, ◌≤◌};
ghost use Rattle.circuit.specs.Gate.{gate};
ghost use Rattle.circuit.specs.Kind.{Owned, Opens, shape};
ghost use Rattle.circuit.specs.Count.{unchecked};
ghost use Rattle.circuit.specs.Round.{Second, Own, Open, Commit};
ghost use Rattle.circuit.specs.Accept.{most_gates};
ghost use Rattle.circuit.specs.Code.{shape_of};
ghost use Rattle.protocol.specs.Position.{resume};
ghost use Rattle.joint.specs.Code.{joint_of, Placed, course_of, due_at, Moving, Moved, none_held, Passed, Kept, Checks, Checked, checked_stop, SettlesAll, settled_all, Runnable, Ran};

use crate::{Checkup, Ending, Frame, Stop, receiving, sending};
use circuit::Shape;
use circuit::rounds::{COMMIT_WORDS, NONCE_SIZE, REVEAL_WORDS};
use field::Word;

// The round of an in gate, which has the shape g; each party's next input is at its place.
fn input_round(
    f: Frame,
    s: Stop,
    g: Shape,
    c: &[Word],
    preps: &[Word],
    inputs: &[Word],
    places: &mut [usize],
    scratch: &mut [Word],
    coefficients: &[Word],
    nonces: &[u8],
    transcript: &mut [Word],
) -> Stop
    requires { Moving (joint_of f.parties c.now preps.now inputs.now coefficients.now nonces.now) f (course_of (due_at s.gate Own) s) Own none_held scratch.old transcript.old
        × (shape_of g ≡ shape (gate c.now s.gate))
        × ((shape (gate c.now s.gate)).class ≡ Owned)
        × (s.waiting ≡ unchecked c.now s.gate)
        × Placed f.parties c.now s.gate places.old }
    ensures { Moved (joint_of f.parties c.now preps.now inputs.now coefficients.now nonces.now) f (course_of (due_at s.gate Own) s) Own none_held scratch.old transcript.old (course_of (resume c.now (suc s.gate)) result) none_held (settled_all f c.now preps.now scratch.new (s.gate + 1)) transcript.new
        × Kept s result
        × Passed c.now s result
        × SettlesAll f c.now preps.now scratch.new (s.gate + 1)
        × Placed f.parties c.now (s.gate + 1) places.new }
{
    let j = s.gate;
    let start = s.written;
    let end = start + f.parties;
    let x = gates::reading::first_at(c, j);
    sending::input_words(
        f,
        s.prep,
        x,
        places,
        preps,
        inputs,
        &mut transcript[start..end],
    );
    let e = steps::receiving::heard_first(f.parties, g.class, x, g.words, &transcript[start..end]);
    receiving::receive_inputs(f, j, s.prep, preps, scratch, e);
    places[x] += 1;
    Stop {
        gate: j + 1,
        prep: s.prep + g.prep,
        written: end,
        rounds: s.rounds + 1,
        ..s
    }
}

// The round of a gate that opens values, which has the shape g.
fn opening_round(
    f: Frame,
    s: Stop,
    g: Shape,
    c: &[Word],
    preps: &[Word],
    inputs: &[Word],
    scratch: &mut [Word],
    coefficients: &[Word],
    nonces: &[u8],
    transcript: &mut [Word],
) -> Stop
    requires { Moving (joint_of f.parties c.now preps.now inputs.now coefficients.now nonces.now) f (course_of (due_at s.gate Own) s) Own none_held scratch.old transcript.old
        × (shape_of g ≡ shape (gate c.now s.gate))
        × ((shape (gate c.now s.gate)).class ≡ Opens)
        × (s.waiting ≡ unchecked c.now s.gate) }
    ensures { Moved (joint_of f.parties c.now preps.now inputs.now coefficients.now nonces.now) f (course_of (due_at s.gate Own) s) Own none_held scratch.old transcript.old (course_of (resume c.now (suc s.gate)) result) none_held (settled_all f c.now preps.now scratch.new (s.gate + 1)) transcript.new
        × Kept s result
        × Passed c.now s result
        × SettlesAll f c.now preps.now scratch.new (s.gate + 1) }
{
    let j = s.gate;
    let k = g.openings;
    let start = s.written;
    let end = start + f.parties * k;
    let x = gates::reading::first_at(c, j);
    let z = gates::reading::factor_at(c, j, k);
    let sums = sending::opening_words(
        f,
        s.prep,
        x,
        z,
        k,
        preps,
        scratch,
        &mut transcript[start..end],
    );
    receiving::receive_openings(
        f, j, x, z, s.prep, k, s.waiting, preps, scratch, sums.first, sums.last,
    );
    Stop {
        gate: j + 1,
        prep: s.prep + g.prep,
        waiting: s.waiting + k,
        written: end,
        rounds: s.rounds + 1,
        ..s
    }
}

// The opening of an output, which has the shape g.
fn show_round(
    f: Frame,
    s: Stop,
    g: Shape,
    c: &[Word],
    preps: &[Word],
    inputs: &[Word],
    scratch: &mut [Word],
    coefficients: &[Word],
    nonces: &[u8],
    transcript: &mut [Word],
) -> Stop
    requires { Moving (joint_of f.parties c.now preps.now inputs.now coefficients.now nonces.now) f (course_of (due_at s.gate Open) s) Open none_held scratch.old transcript.old
        × (shape_of g ≡ shape (gate c.now s.gate)) }
    ensures { Moved (joint_of f.parties c.now preps.now inputs.now coefficients.now nonces.now) f (course_of (due_at s.gate Open) s) Open none_held scratch.old transcript.old (course_of (due_at s.gate (Commit Second)) result) none_held scratch.new transcript.new
        × Kept s result
        × (result.gate ≡ s.gate)
        × (result.prep ≡ s.prep) }
{
    let start = s.written;
    let end = start + f.parties;
    let x = gates::reading::first_at(c, s.gate);
    let give = circuit::shapes::is_give(g);
    sending::output_words(
        f,
        s.prep,
        x,
        give,
        preps,
        scratch,
        &mut transcript[start..end],
    );
    let e = steps::receiving::heard_sum(f.parties, 1, 0, &transcript[start..end]);
    receiving::receive_outputs(f, s.prep, x, give, preps, scratch, e);
    Stop {
        written: end,
        rounds: s.rounds + 1,
        ..s
    }
}

// Both rounds of a check of the first k opened entries: the marks of all go to the transcript and, with each party's nonce, to the scratch; then
// what they reveal goes to the transcript. The sum of the check shares alone decides: that each reveal fits its mark is proved, and not asked.
fn check(
    f: Frame,
    k: usize,
    s: Stop,
    preps: &[Word],
    scratch: &mut [Word],
    coefficients: &[Word],
    nonces: &[u8],
    transcript: &mut [Word],
) -> Checkup
    requires { Checks f preps.now scratch.old k s.used coefficients.now s.checks nonces.now s.written transcript.old
        × (s.rounds ≤ 5 * most_gates) }
    ensures { Checked f preps.now scratch.old k s.used coefficients.now s.checks nonces.now s.written transcript.old result.sum scratch.new transcript.new
        × (result.next ≡ checked_stop f k s) }
{
    let n = f.parties;
    let first = s.checks * n * NONCE_SIZE;
    let last = first + n * NONCE_SIZE;
    let start = s.written;
    let middle = start + n * COMMIT_WORDS;
    let end = middle + n * REVEAL_WORDS;
    let mut held = [0u32; 8];
    sending::check_shares(f, k, s.used, preps, scratch, coefficients, &mut held[0..n]);
    sending::put_nonces(f, &nonces[first..last], scratch);
    sending::commit_words(f, &held, scratch, &mut transcript[start..middle]);
    receiving::receive_marks(f, scratch, &transcript[start..middle]);
    sending::reveal_words(f, &held, scratch, &mut transcript[middle..end]);
    let sum = steps::receiving::heard_sum(n, REVEAL_WORDS, 0, &transcript[middle..end]);
    Checkup {
        sum,
        next: Stop {
            waiting: 0,
            used: s.used + k,
            checks: s.checks + 1,
            written: end,
            rounds: s.rounds + 2,
            ..s
        },
    }
}

// Gate after gate, until a check stops the run or no gate is left. Each party's next input is at its place. The linear gates after a gate belong
// to its last round, and are done before the next gate that has rounds, at one place for all.
pub fn run(
    f: Frame,
    places: &mut [usize],
    c: &[Word],
    preps: &[Word],
    inputs: &[Word],
    scratch: &mut [Word],
    coefficients: &[Word],
    nonces: &[u8],
    transcript: &mut [Word],
    outputs: &mut [Word],
) -> Ending
    requires { Runnable (joint_of f.parties c.now preps.now inputs.now coefficients.now nonces.now) f scratch.old transcript.old outputs.old
        × Placed f.parties c.now 0 places.old }
    ensures { Ran (joint_of f.parties c.now preps.now inputs.now coefficients.now nonces.now) scratch.old transcript.old outputs.old result scratch.new transcript.new outputs.new }
{
    let mut s = Stop {
        gate: 0,
        prep: 1,
        waiting: 0,
        used: 0,
        checks: 0,
        written: 0,
        released: 0,
        rounds: 0,
    };
    loop {
        let j = receiving::settle(f, c, s.gate, preps, scratch);
        if f.layout.gates <= j {
            return Ending::Done(s.rounds);
        }
        s.gate = j;
        let g = gates::reading::shape_at(c, j);
        if circuit::shapes::is_in(g.class) {
            s = input_round(
                f,
                s,
                g,
                c,
                preps,
                inputs,
                places,
                scratch,
                coefficients,
                nonces,
                transcript,
            );
            continue;
        }
        if circuit::shapes::opens(g.class) {
            s = opening_round(
                f,
                s,
                g,
                c,
                preps,
                inputs,
                scratch,
                coefficients,
                nonces,
                transcript,
            );
            continue;
        }
        let waiting = s.waiting;
        if waiting != 0 {
            let first = check(
                f,
                waiting,
                s,
                preps,
                scratch,
                coefficients,
                nonces,
                transcript,
            );
            s = first.next;
            if first.sum != 0 {
                return Ending::Aborted {
                    gate: j,
                    blame: None,
                    rounds: s.rounds,
                };
            }
            continue;
        }
        s = show_round(
            f,
            s,
            g,
            c,
            preps,
            inputs,
            scratch,
            coefficients,
            nonces,
            transcript,
        );
        let second = check(f, 1, s, preps, scratch, coefficients, nonces, transcript);
        s = second.next;
        if second.sum != 0 {
            return Ending::Aborted {
                gate: j,
                blame: None,
                rounds: s.rounds,
            };
        }
        let at = s.released;
        let give = circuit::shapes::is_give(g);
        outputs[at] = receiving::listed_score(f, c, j, s.prep, give, preps, scratch);
        s.gate = j + 1;
        s.prep += g.prep;
        s.released = at + 1;
    }
}
