// What a party works out of the words of all. The steps ask nothing: what they need is what an entry has asked.
ghost use Rattle.std.specs.Prelude.{◌≡◌, true, cond, ℕ, suc, ◌+◌, ◌-◌, ◌*◌, ◌<◌, ◌≤◌, length, get_or, drop, eqb};
ghost use Rattle.algebra.specs.Element.{Is};
ghost use Rattle.field.specs.Words.{size, ops, sum_size, sum_room, term_size};
ghost use Rattle.circuit.specs.Gate.{gate_size, gate, gates, gate_of};
ghost use Rattle.circuit.specs.Kind.{Local, Owned, Opens, kind_shape, shape, is_class, is_divisor, is_give};
ghost use Rattle.circuit.specs.Count.{unchecked};
ghost use Rattle.circuit.specs.Round.{Second, Own, Open, Reveal, commit_words, reveal_words};
ghost use Rattle.circuit.specs.Code.{kind_of, class_of, role_of, check_of, round_of};
ghost use Rattle.protocol.specs.Part.{part_at, product};
ghost use Rattle.protocol.specs.Scratch.{slots_size, wire};
ghost use Rattle.protocol.specs.Party.{party_of, a_at, b_at, c_at};
ghost use Rattle.protocol.specs.Position.{reach, enter, resume};
ghost use Rattle.protocol.specs.Send.{shown};
ghost use Rattle.protocol.specs.Receive.{heard_sum, after_input, put_differences, after_opening, after_open_output, score, operand_of, linear, put_linear, settle, onward, received, fits, misfit, weighs};
ghost use Rattle.protocol.specs.Holding.{Below, Held, Opened, Reads};
ghost use Rattle.protocol.specs.Code.{layout_of, point_of, blame_of, ruling_of};
ghost use Rattle.protocol.specs.Ready.{Opening, Settles, Stands, Ready, Receives, Named, Summed};
ghost use Rattle.steps.specs.Code.{IsPart, Concludes};

use crate::{Conclusion, Ends, Part, parts, scratch, sending};
use circuit::rounds::{COMMIT_WORDS, REVEAL_WORDS};
use circuit::{Check, Class, Kind, Role, Round};
use field::{Sum, Word};
use protocol::{Blame, Layout, Point, Ruling, Site, Slot, Stage};

// The sum over the parties of word t of each, where each sent k.
pub fn heard_sum(n: usize, k: usize, t: usize, heard: &[Word]) -> Word
    requires { (t < k) × (n * k ≤ length heard.now) × ((i : ℕ) → i < n → get_or heard.now (i * k + t) 0 < size) }
    ensures { Is size (heard_sum ops n k t heard.now) result }
{
    let mut acc = 0;
    for i in 0..n {
        acc = field::add(acc, heard[i * k + t]);
    }
    acc
}

// The first word of party i, where each sent k.
fn first_word(i: usize, k: usize, heard: &[Word]) -> Word
    requires { (i * k < length heard.now) × Below size heard.now }
    ensures { Is size (get_or heard.now (i * k) 0) result }
{
    let at = i * k;
    heard[at]
}

// What the first words of n parties come to, where each sent k: the owner's word of an in gate, else their sum.
pub fn heard_first(n: usize, class: Class, owner: usize, k: usize, heard: &[Word]) -> Word
    requires { (0 < k) × (n * k ≤ length heard.now) × Below size heard.now × (is_class Owned (class_of class) ≡ true → owner < n) }
    ensures { Is size (cond (is_class Owned (class_of class)) (get_or heard.now (owner * k) 0) (heard_sum ops n k 0 heard.now)) result }
{
    if circuit::shapes::is_in(class) {
        return first_word(owner, k, heard);
    }
    heard_sum(n, k, 0, heard)
}

// And the last words, of a gate that opens values.
fn heard_second(n: usize, class: Class, openings: usize, k: usize, heard: &[Word]) -> Word
    requires { (n * k ≤ length heard.now) × Below size heard.now × (is_class Opens (class_of class) ≡ true → (1 ≤ openings) × (openings - 1 < k)) }
    ensures { Is size (cond (is_class Opens (class_of class)) (heard_sum ops n k (openings - 1) heard.now) 0) result }
{
    if circuit::shapes::opens(class) {
        return heard_sum(n, k, openings - 1, heard);
    }
    0
}

// The words of one more party are heard: its first and its last are added up.
pub fn hear(sums: Ends<Sum>, ends: Ends<Word>) -> Ends<Sum>
    requires { (sums.first < sum_room) × (sums.last < sum_room) × (ends.first < size) × (ends.last < size) }
    ensures first { (result.first < sums.first + term_size) × (ops.norm result.first ≡ ops.add (ops.norm sums.first) ends.first) }
    ensures last { (result.last < sums.last + term_size) × (ops.norm result.last ≡ ops.add (ops.norm sums.last) ends.last) }
{
    Ends {
        first: field::add_element(sums.first, ends.first),
        last: field::add_element(sums.last, ends.last),
    }
}

// What the sums come to, once all are heard.
pub fn heard_ends(sums: Ends<Sum>) -> Ends<Word>
    requires { (sums.first < sum_size) × (sums.last < sum_size) }
    ensures { Is size (ops.norm sums.first) result.first × Is size (ops.norm sums.last) result.last }
{
    Ends {
        first: field::element(sums.first),
        last: field::element(sums.last),
    }
}

// m starts at the gate's record, and e is the owner's word.
#[tactic(auto, unfolding(protocol::specs::Receive::after_input))]
pub fn after_input(me: usize, key: Word, y: Layout, l: &mut [Word], j: usize, m: &[Word], e: Word)
    requires { (key < size) × (e < size) × (1 < length m.now) × Below size m.now × (slots_size (layout_of y) ≤ length l.old) × (j < y.gates) }
    ensures { l.new ≡ after_input ops me key (layout_of y) l.old j m.now e }
{
    let x = Part::at(m, sending::MASK_AT).shifted(me, key, e);
    scratch::put_wire(l, y, j, x);
}

// The values that a gate opens, k of them, with the party's MAC shares: the last, and then the first. Where one is opened they are one
// entry, so that there is nothing to test.
#[tactic(auto, using(protocol::proofs::Steps::differences_made), unfolding(crate::specs::Code::part_of, protocol::specs::Code::layout_of))]
fn put_differences(
    y: Layout,
    l: &mut [Word],
    x: usize,
    z: usize,
    m: &[Word],
    k: usize,
    u: usize,
    e: Word,
    d: Word,
)
    requires { (slots_size (layout_of y) ≤ length l.old)
        × Held size (layout_of y) l.old x
        × Held size (layout_of y) l.old z
        × (1 ≤ k)
        × (k ≤ 2)
        × (2 * k + 1 < length m.now)
        × Below size m.now
        × (u + k ≤ y.capacity) }
    ensures { l.new ≡ put_differences ops (layout_of y) l.old x z m.now k u e d }
{
    let first = sending::masked(l, y, x, m, sending::A_AT);
    let second = sending::masked(l, y, z, m, 2 * k - 2);
    scratch::put_opened(l, y, u + (k - 1), d, second.mac);
    scratch::put_opened(l, y, u, e, first.mac);
}

// The product from the record that m starts with.
fn record_product(me: usize, key: Word, m: &[Word], k: usize, e: Word, d: Word) -> Part
    requires { (key < size) × (1 ≤ k) × (k ≤ 2) × (2 * k + 1 < length m.now) × Below size m.now × (e < size) × (d < size) }
    ensures { IsPart (product ops me key (part_at m.now a_at) (part_at m.now (b_at k)) (part_at m.now (c_at k)) e d) result }
{
    let at = 2 * k;
    let a = Part::at(m, sending::A_AT);
    let b = Part::at(m, at - 2);
    let c = Part::at(m, at);
    parts::multiplied(me, key, a, b, c, e, d)
}

// Gate j, which names x and z and opens k values after u entries; m starts at its record.
#[tactic(auto, using(protocol::proofs::Steps::opening_made), unfolding(crate::specs::Code::part_of, protocol::specs::Code::layout_of))]
pub fn after_opening(
    me: usize,
    key: Word,
    y: Layout,
    l: &mut [Word],
    j: usize,
    x: usize,
    z: usize,
    m: &[Word],
    k: usize,
    u: usize,
    e: Word,
    d: Word,
)
    requires { Opening size key (layout_of y) l.old j x z m.now k u e d }
    ensures { l.new ≡ after_opening ops me key (layout_of y) l.old j x z m.now k u e d }
{
    let product = record_product(me, key, m, k, e, d);
    put_differences(y, l, x, z, m, k, u, e, d);
    scratch::put_wire(l, y, j, product);
}

// The sum of the shown shares of an output of gate x is the only opened entry; m starts at the record of a give.
#[tactic(auto, unfolding(protocol::specs::Receive::after_open_output, crate::specs::Code::part_of))]
pub fn after_open_output(y: Layout, l: &mut [Word], x: usize, give: bool, m: &[Word], s: Word)
    requires { (slots_size (layout_of y) ≤ length l.old)
        × (0 < y.capacity)
        × Held size (layout_of y) l.old x
        × (give ≡ true → 1 < length m.now)
        × Below size m.now }
    ensures { l.new ≡ after_open_output ops (layout_of y) l.old (shown ops (layout_of y) l.old give x m.now) s }
{
    let shown = sending::shown_part(l, y, x, give, m);
    scratch::put_opened(l, y, 0, s, shown.mac);
}

// The score of an output whose second check passes: the number at opened index 0, and of a give that number with the whole mask of its record m.
#[tactic(auto, unfolding(protocol::specs::Receive::score))]
pub fn score_of(l: &[Word], y: Layout, give: bool, m: &[Word]) -> Word
    requires { (slots_size (layout_of y) ≤ length l.now)
        × Opened size (layout_of y) l.now 0
        × (give ≡ true → 2 < length m.now)
        × Below size m.now }
    ensures { result ≡ score ops (layout_of y) l.now give m.now }
{
    let shown = scratch::read_slot(l, y, Slot::Value(0));
    if give {
        return field::add(shown, m[sending::WHOLE_MASK_AT]);
    }
    shown
}

// The score of gate j, whose record stands at number start of the preprocessing.
pub fn score_at(c: &[Word], prep: &[Word], l: &[Word], y: Layout, j: usize, start: usize) -> Word
    requires { (gate_size * j + gate_size ≤ length c.now)
        × (start ≤ length prep.now)
        × (is_give (gate c.now j) ≡ true → start + 2 < length prep.now)
        × Below size prep.now
        × (slots_size (layout_of y) ≤ length l.now)
        × Opened size (layout_of y) l.now 0 }
    ensures { result ≡ score ops (layout_of y) l.now (is_give (gate c.now j)) (drop start prep.now) }
{
    let give = gates::reading::is_give_at(c, j);
    score_of(l, y, give, &prep[start..])
}

// What gate j is worked out with, where its constant is for that: a divisor's inverse, and otherwise the constant.
#[tactic(auto, unfolding(protocol::specs::Receive::operand))]
pub fn operand_at(c: &[Word], j: usize, role: Role) -> Word
    requires { (gate_size * j + gate_size ≤ length c.now)
        × (role_of role ≡ (shape (gate c.now j)).constant)
        × (is_divisor (shape (gate c.now j)).constant ≡ true → (gate c.now j).constant < size) }
    ensures { result ≡ operand_of ops (gate c.now j) }
{
    let k = gates::reading::constant_at(c, j);
    if circuit::shapes::is_divisor(role) {
        return field::inverse(k);
    }
    k
}

// What a gate of a local kind comes to, which names x and z and is worked out with k. No other kind is local.
#[tactic(auto, using(crate::proofs::Concluding::local_first), unfolding(circuit::specs::Kind::kind_shape, circuit::specs::Kind::is_class, protocol::specs::Receive::linear))]
fn linear(
    me: usize,
    key: Word,
    y: Layout,
    l: &[Word],
    kind: Kind,
    x: usize,
    z: usize,
    k: Word,
) -> Part
    requires { (key < size)
        × (slots_size (layout_of y) ≤ length l.now)
        × (is_class Local (kind_shape (kind_of kind)).class ≡ true)
        × Reads size (layout_of y) l.now (gate_of (kind_of kind) x z k) }
    ensures { IsPart (linear ops me key (kind_of kind) (wire (layout_of y) l.now x) (wire (layout_of y) l.now z) k) result }
{
    let first = scratch::wire_at(l, y, x);
    match kind {
        Kind::Add => first + scratch::wire_at(l, y, z),
        Kind::Sub => first - scratch::wire_at(l, y, z),
        Kind::Plus => first.shifted(me, key, k),
        Kind::Times => first.times(k),
        Kind::Over => first.times(k),
        Kind::In | Kind::Mul | Kind::Out | Kind::Sq | Kind::Give => unreachable!(),
    }
}

// Gate j, of a local kind, which names x and z and is worked out with k.
#[tactic(auto, unfolding(protocol::specs::Receive::put_linear))]
pub fn after_linear(
    me: usize,
    key: Word,
    y: Layout,
    l: &mut [Word],
    j: usize,
    kind: Kind,
    x: usize,
    z: usize,
    k: Word,
)
    requires { (key < size)
        × (slots_size (layout_of y) ≤ length l.old)
        × (j < y.gates)
        × (is_class Local (kind_shape (kind_of kind)).class ≡ true)
        × Reads size (layout_of y) l.old (gate_of (kind_of kind) x z k) }
    ensures { l.new ≡ put_linear ops me key (layout_of y) l.old j (kind_of kind) x z k }
{
    let w = linear(me, key, y, l, kind, x, z, k);
    scratch::put_wire(l, y, j, w);
}

// The first gate from gate from on that needs a round, or the number of gates.
pub fn reach(c: &[Word], count: usize, from: usize) -> usize
    requires { (gate_size * count ≤ length c.now) × (from ≤ count) }
    ensures { result ≡ reach c.now (count - from) from }
{
    (from..count)
        .find(|j| !circuit::shapes::is_linear(gates::reading::class_at(c, *j)))
        .unwrap_or(count)
}

// The linear gates from gate from on, up to the stop that they reach.
pub fn settle(me: usize, key: Word, c: &[Word], y: Layout, l: &mut [Word], from: usize, stop: usize)
    requires { Settles size c.now (layout_of y) key l.old from × (stop ≡ reach c.now (y.gates - from) from) }
    ensures { l.new ≡ settle ops me key c.now (layout_of y) (y.gates - from) from l.old }
{
    for j in from..stop {
        let kind = gates::reading::kind_at(c, j);
        let x = gates::reading::first_at(c, j);
        let z = gates::reading::second_at(c, j);
        let k = operand_at(c, j, circuit::shapes::shape_of(kind).constant);
        after_linear(me, key, y, l, j, kind, x, z, k);
    }
}

// The first round of gate k, before which that many entries wait for a check, or the end.
fn enter(c: &[Word], count: usize, k: usize, waiting: usize) -> Point
    requires { (count ≡ gates c.now) × (gate_size * count ≤ length c.now) × (0 < count) × (k < count → waiting ≡ unchecked c.now k) }
    ensures { point_of result ≡ enter c.now k }
{
    let end = Point {
        gate: count - 1,
        stage: Stage::Finished,
    };
    if count <= k {
        return end;
    }
    let class = gates::reading::class_at(c, k);
    match class {
        Class::Local => end,
        Class::Owned => protocol::sending_at(k, Round::Own),
        Class::Opens => protocol::sending_at(k, Round::Own),
        Class::Output => {
            if waiting == 0 {
                return protocol::sending_at(k, Round::Open);
            }
            protocol::sending_at(k, Round::Commit(Check::First))
        }
    }
}

// Gate j is done, before which that many entries waited for a check: the next stop. Linear gates open nothing, so the entries that wait
// there are those that wait after gate j.
pub fn resume(c: &[Word], count: usize, j: usize, stop: usize, waiting: usize) -> Point
    requires { Stands c.now count j stop waiting }
    ensures { point_of result ≡ resume c.now (suc j) }
{
    let waiting_after = circuit::counting::unchecked_after(gates::reading::shape_at(c, j), waiting);
    enter(c, count, stop, waiting_after)
}

// The scratch after a gate's own round. The gate names x and z and opens k values, the words of all come to e and d, and the linear gates
// after it reach stop.
fn receive_own(
    parties: usize,
    me: usize,
    c: &[Word],
    prep: &[Word],
    inputs: &[Word],
    l: &mut [Word],
    y: Layout,
    at: Site,
    class: Class,
    x: usize,
    z: usize,
    k: usize,
    stop: usize,
    heard: &[Word],
    e: Word,
    d: Word,
)
    requires { Receives size (party_of parties me c.now prep.now inputs.now) l.old y at Own heard.now
        × (stop ≡ reach c.now (y.gates - (at.gate + 1)) (at.gate + 1))
        × (class_of class ≡ (shape (gate c.now at.gate)).class)
        × Named (gate c.now at.gate) x z k
        × Summed ops parties (gate c.now at.gate) Own heard.now e d }
    ensures { l.new
        ≡ received ops (party_of parties me c.now prep.now inputs.now)
        l.old at.gate Own heard.now }
{
    let j = at.gate;
    let start = at.prep;
    let key = prep[0];
    if circuit::shapes::is_in(class) {
        after_input(me, key, y, l, j, &prep[start..], e);
        settle(me, key, c, y, l, j + 1, stop);
        return;
    }
    after_opening(
        me,
        key,
        y,
        l,
        j,
        x,
        z,
        &prep[start..],
        k,
        at.unchecked,
        e,
        d,
    );
    settle(me, key, c, y, l, j + 1, stop);
}

// A gate's own round: the words are summed up, the scratch is written, and the next stop is found.
fn receive_gate(
    parties: usize,
    me: usize,
    c: &[Word],
    prep: &[Word],
    inputs: &[Word],
    l: &mut [Word],
    y: Layout,
    at: Site,
    heard: &[Word],
) -> Point
    requires { Receives size (party_of parties me c.now prep.now inputs.now) l.old y at Own heard.now }
    ensures point { point_of result ≡ resume c.now (suc at.gate) }
    ensures scratch { l.new
        ≡ received ops (party_of parties me c.now prep.now inputs.now)
        l.old at.gate Own heard.now }
{
    let j = at.gate;
    let s = gates::reading::shape_at(c, j);
    let x = gates::reading::first_at(c, j);
    let class = s.class;
    let k = s.openings;
    let z = gates::reading::factor_at(c, j, k);
    let w = s.words;
    let e = heard_first(parties, class, x, w, heard);
    let d = heard_second(parties, class, k, w, heard);
    let stop = reach(c, y.gates, j + 1);
    receive_own(
        parties, me, c, prep, inputs, l, y, at, class, x, z, k, stop, heard, e, d,
    );
    resume(c, y.gates, j, stop, at.unchecked)
}

// The opening of an output: one word of each party.
fn receive_output(
    parties: usize,
    me: usize,
    c: &[Word],
    prep: &[Word],
    inputs: &[Word],
    l: &mut [Word],
    y: Layout,
    at: Site,
    heard: &[Word],
)
    requires { Receives size (party_of parties me c.now prep.now inputs.now) l.old y at Open heard.now }
    ensures { l.new
        ≡ received ops (party_of parties me c.now prep.now inputs.now)
        l.old at.gate Open heard.now }
{
    let start = at.prep;
    let x = gates::reading::first_at(c, at.gate);
    let give = gates::reading::is_give_at(c, at.gate);
    let shown = heard_sum(parties, 1, 0, heard);
    after_open_output(y, l, x, give, &prep[start..], shown);
}

// Does what party i reveals fit its mark?
#[tactic(auto, using(crate::proofs::Marking::fits_parts))]
fn fits(marks: &[Word], heard: &[Word], i: usize) -> bool
    requires { (i * commit_words + commit_words ≤ length marks.now) × (i * reveal_words + reveal_words ≤ length heard.now) }
    ensures { result ≡ fits marks.now heard.now i }
{
    let mark = i * COMMIT_WORDS;
    let words = i * REVEAL_WORDS;
    sha256::matches(
        &heard[words..words + REVEAL_WORDS],
        &marks[mark..mark + COMMIT_WORDS],
    )
}

// The lowest party whose reveal does not fit its mark, if there is one.
pub fn misfit(parties: usize, marks: &[Word], heard: &[Word]) -> Blame
    requires { (parties * commit_words ≤ length marks.now) × (parties * reveal_words ≤ length heard.now) }
    ensures { blame_of result ≡ misfit parties marks.now heard.now }
{
    (0..parties).find(|party| !fits(marks, heard, *party))
}

// How a reveal ends: where all fit their marks, the sum of the check shares decides.
pub fn judge(parties: usize, marks: &[Word], heard: &[Word]) -> Ruling
    requires { (parties * commit_words ≤ length marks.now)
        × (parties * reveal_words ≤ length heard.now)
        × ((i : ℕ) → i < parties → get_or heard.now (i * reveal_words) 0 < size) }
    ensures { ruling_of result
        ≡ weighs (misfit parties marks.now heard.now) (eqb (heard_sum ops parties reveal_words 0 heard.now) 0) }
{
    let blame = misfit(parties, marks, heard);
    if blame.is_some() || heard_sum(parties, REVEAL_WORDS, 0, heard) != 0 {
        return Err(blame);
    }
    Ok(())
}

// The second check has passed: the linear gates after the output are done, and the next stop is found.
fn release(
    parties: usize,
    me: usize,
    c: &[Word],
    prep: &[Word],
    inputs: &[Word],
    l: &mut [Word],
    y: Layout,
    at: Site,
) -> Point
    requires { Ready size (party_of parties me c.now prep.now inputs.now) l.old y at (Reveal Second) }
    ensures point { point_of result ≡ resume c.now (suc at.gate) }
    ensures scratch { l.new
        ≡ onward ops (party_of parties me c.now prep.now inputs.now) at.gate l.old }
{
    let next = at.gate + 1;
    let stop = reach(c, y.gates, next);
    settle(me, prep[0], c, y, l, next, stop);
    resume(c, y.gates, at.gate, stop, at.unchecked)
}

// The reveal of a check.
fn receive_reveal(
    parties: usize,
    me: usize,
    c: &[Word],
    prep: &[Word],
    inputs: &[Word],
    l: &mut [Word],
    y: Layout,
    at: Site,
    check: Check,
    heard: &[Word],
) -> Conclusion
    requires { Receives size (party_of parties me c.now prep.now inputs.now) l.old y at (Reveal (check_of check)) heard.now }
    ensures { Concludes (party_of parties me c.now prep.now inputs.now)
        l.old at.gate (Reveal (check_of check)) heard.now result l.new }
{
    let start = protocol::marks_at(y);
    let end = start + parties * COMMIT_WORDS;
    let ruling = judge(parties, &l[start..end], heard);
    match ruling {
        Err(_) => Conclusion {
            ruling,
            point: protocol::aborted_at(at.gate),
        },
        Ok(()) => match check {
            Check::First => Conclusion {
                ruling,
                point: protocol::sending_at(at.gate, Round::Open),
            },
            Check::Second => Conclusion {
                ruling,
                point: release(parties, me, c, prep, inputs, l, y, at),
            },
        },
    }
}

// What the words of all come to in round r, and the scratch after it.
pub fn receive_step(
    parties: usize,
    me: usize,
    c: &[Word],
    prep: &[Word],
    inputs: &[Word],
    l: &mut [Word],
    y: Layout,
    at: Site,
    r: Round,
    heard: &[Word],
) -> Conclusion
    requires { Receives size (party_of parties me c.now prep.now inputs.now) l.old y at (round_of r) heard.now }
    ensures { Concludes (party_of parties me c.now prep.now inputs.now)
        l.old at.gate (round_of r) heard.now result l.new }
{
    match r {
        Round::Own => Conclusion {
            ruling: Ok(()),
            point: receive_gate(parties, me, c, prep, inputs, l, y, at, heard),
        },
        Round::Open => {
            receive_output(parties, me, c, prep, inputs, l, y, at, heard);
            Conclusion {
                ruling: Ok(()),
                point: protocol::sending_at(at.gate, Round::Commit(Check::Second)),
            }
        }
        Round::Commit(check) => {
            scratch::put_marks(l, y, heard);
            Conclusion {
                ruling: Ok(()),
                point: protocol::sending_at(at.gate, Round::Reveal(check)),
            }
        }
        Round::Reveal(check) => receive_reveal(
            parties, me, c, prep, inputs, l, y, at, check, heard,
        ),
    }
}
