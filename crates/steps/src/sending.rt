// What a party sends in a round. The steps ask nothing: what they need is what an entry has asked.
ghost use Rattle.std.specs.Prelude.{◌≡◌, true, [], ◌∷◌, ℕ, ◌+◌, ◌*◌, ◌<◌, ◌≤◌, length, get_or, drop};
ghost use Rattle.algebra.specs.Element.{Is};
ghost use Rattle.field.specs.Words.{size, ops, sum_size};
ghost use Rattle.circuit.specs.Gate.{gate_size, gate};
ghost use Rattle.circuit.specs.Kind.{shape, is_give};
ghost use Rattle.circuit.specs.Round.{Own, commit_words, reveal_words, words};
ghost use Rattle.circuit.specs.Code.{round_of};
ghost use Rattle.protocol.specs.Scratch.{slots_size, marks_at, nonce_of};
ghost use Rattle.protocol.specs.Party.{party_of};
ghost use Rattle.protocol.specs.Send.{input_word, masked, shown, words_of_opening, check_share, revealed, mark, own_words, sent, holds, noted, overwrite};
ghost use Rattle.protocol.specs.Holding.{Below, Held, Opened};
ghost use Rattle.protocol.specs.Code.{layout_of};
ghost use Rattle.protocol.specs.Ready.{Ready, Sends};
ghost use Rattle.steps.specs.Code.{pass_size, value_sum, weighed, IsPart, AreEnds};

use crate::{Ends, Part, scratch};
use circuit::Round;
use circuit::rounds::{NONCE_WORDS, REVEAL_WORDS};
use field::{Sum, Word};
use protocol::{Layout, Site, Slot};

// Where numbers stand in a record of the preprocessing.
pub const MASK_AT: usize = 0;

pub const WHOLE_MASK_AT: usize = 2;

pub const A_AT: usize = 0;

// The number at k, and 0 past the end: a party may have no input left at a gate that it does not own.
fn number_at(xs: &[Word], k: usize) -> Word
    requires { Below size xs.now }
    ensures { Is size (get_or xs.now k 0) result }
{
    xs.get(k).copied().unwrap_or(0)
}

// The word of an in gate; m starts at the gate's record, and the owner's input for it stands at k.
#[tactic(auto, unfolding(protocol::specs::Send::input_word))]
pub fn input_word(me: usize, owner: usize, m: &[Word], inputs: &[Word], k: usize) -> Word
    requires { (2 < length m.now) × Below size m.now × Below size inputs.now }
    ensures { Is size (input_word ops me owner m.now (get_or inputs.now k 0)) result }
{
    if me == owner {
        return field::sub(number_at(inputs, k), m[WHOLE_MASK_AT]);
    }
    0
}

// The party's part of the difference of gate x and the mask that stands at k; m starts at the gate's record.
#[tactic(auto, unfolding(protocol::specs::Send::masked))]
pub fn masked(l: &[Word], y: Layout, x: usize, m: &[Word], k: usize) -> Part
    requires { (slots_size (layout_of y) ≤ length l.now) × Held size (layout_of y) l.now x × (k + 1 < length m.now) × Below size m.now }
    ensures { IsPart (masked ops (layout_of y) l.now x m.now k) result }
{
    scratch::wire_at(l, y, x) - Part::at(m, k)
}

// The party's part of what an output of gate x shows; a give shows it less its mask, and m starts at its record.
#[tactic(auto, unfolding(protocol::specs::Send::shown))]
pub fn shown_part(l: &[Word], y: Layout, x: usize, give: bool, m: &[Word]) -> Part
    requires { (slots_size (layout_of y) ≤ length l.now)
        × Held size (layout_of y) l.now x
        × (give ≡ true → 1 < length m.now)
        × Below size m.now }
    ensures { IsPart (shown ops (layout_of y) l.now give x m.now) result }
{
    if give {
        return masked(l, y, x, m, MASK_AT);
    }
    scratch::wire_at(l, y, x)
}

// How many products are added up at most before the running sum is folded.
const PASS: usize = 1024;

// Where a pass of the products from t on ends, of k in all.
fn pass_end(t: usize, k: usize) -> usize
    requires { t < k }
    ensures { (t < result) × (result ≤ k) × (result ≤ t + pass_size) }
{
    if k - t < PASS { k } else { t + PASS }
}

// A pass: the running sum goes on by each coefficient times the number at its place.
fn weigh_on(start: Sum, values: &[Word], coefficients: &[Word]) -> Sum
    requires { (start < sum_size)
        × (length values.now ≡ length coefficients.now)
        × (length coefficients.now ≤ pass_size)
        × Below size values.now
        × Below size coefficients.now }
    ensures { (result < sum_size)
        × (ops.norm result ≡ ops.add (ops.norm start) (weighed values.now coefficients.now (length coefficients.now))) }
{
    let mut acc = start;
    for (coefficient, value) in coefficients.iter().zip(values) {
        acc = field::add_product(acc, *coefficient, *value);
    }
    field::fold(acc)
}

// The coefficients, each times the number at its place, summed up and reduced at the end.
fn weigh(values: &[Word], coefficients: &[Word]) -> Word
    requires { (length values.now ≡ length coefficients.now) × Below size values.now × Below size coefficients.now }
    ensures { Is size (weighed values.now coefficients.now (length coefficients.now)) result }
{
    let k = coefficients.len();
    if k == 1 {
        return field::mul(coefficients[0], values[0]);
    }
    let mut acc: Sum = 0;
    let mut t = 0;
    while t < k {
        let to = pass_end(t, k);
        acc = weigh_on(acc, &values[t..to], &coefficients[t..to]);
        t = to;
    }
    field::reduce(acc)
}

// The first k opened values, each times its coefficient.
pub fn weigh_values(l: &[Word], y: Layout, k: usize, coefficients: &[Word]) -> Word
    requires { (slots_size (layout_of y) ≤ length l.now)
        × (0 < (layout_of y).capacity)
        × (k ≤ length coefficients.now)
        × Below size coefficients.now
        × ((t : ℕ) → t < k → Opened size (layout_of y) l.now t) }
    ensures { Is size (value_sum (layout_of y) l.now k coefficients.now) result }
{
    let at = protocol::offset_of(y, Slot::Value(0));
    weigh(&l[at..at + k], &coefficients[..k])
}

// The check share over the first k opened entries, whose values come to v.
pub fn check_share_of(
    v: Word,
    l: &[Word],
    y: Layout,
    k: usize,
    key: Word,
    coefficients: &[Word],
) -> Word
    requires { Is size (value_sum (layout_of y) l.now k coefficients.now) v
        × (slots_size (layout_of y) ≤ length l.now)
        × (0 < (layout_of y).capacity)
        × (key < size)
        × (k ≤ length coefficients.now)
        × Below size coefficients.now
        × ((t : ℕ) → t < k → Opened size (layout_of y) l.now t) }
    ensures { Is size (check_share ops (layout_of y) l.now k key coefficients.now) result }
{
    let at = protocol::offset_of(y, Slot::ValueMac(0));
    let macs = weigh(&l[at..at + k], &coefficients[..k]);
    field::sub(macs, field::mul(key, v))
}

// The check share over the first k opened entries.
pub fn check_share(l: &[Word], y: Layout, k: usize, key: Word, coefficients: &[Word]) -> Word
    requires { (slots_size (layout_of y) ≤ length l.now)
        × (0 < (layout_of y).capacity)
        × (key < size)
        × (k ≤ length coefficients.now)
        × Below size coefficients.now
        × ((t : ℕ) → t < k → Opened size (layout_of y) l.now t) }
    ensures { Is size (check_share ops (layout_of y) l.now k key coefficients.now) result }
{
    check_share_of(
        weigh_values(l, y, k, coefficients),
        l,
        y,
        k,
        key,
        coefficients,
    )
}

// The words of a gate that opens k values and names x and z, which are written and of which the first and the last are told; m starts at its
// record.
pub fn opening_words(
    l: &[Word],
    y: Layout,
    x: usize,
    z: usize,
    m: &[Word],
    k: usize,
    out: &mut [Word],
) -> Ends<Word>
    requires { (slots_size (layout_of y) ≤ length l.now)
        × Held size (layout_of y) l.now x
        × Held size (layout_of y) l.now z
        × (1 ≤ k)
        × (k ≤ 2)
        × (2 * k + 1 < length m.now)
        × Below size m.now
        × (k ≤ length out.old) }
    ensures out { out.new ≡ overwrite (words_of_opening ops (layout_of y) l.now x z m.now k) out.old }
    ensures ends { AreEnds (words_of_opening ops (layout_of y) l.now x z m.now k) k result }
{
    let first = masked(l, y, x, m, A_AT);
    out[0] = first.share;
    if k == 2 {
        let second = masked(l, y, z, m, 2 * k - 2);
        out[1] = second.share;
        return Ends {
            first: first.share,
            last: second.share,
        };
    }
    Ends {
        first: first.share,
        last: first.share,
    }
}

// The words of a gate's own round.
fn send_own(
    me: usize,
    c: &[Word],
    prep: &[Word],
    inputs: &[Word],
    l: &[Word],
    y: Layout,
    at: Site,
    out: &mut [Word],
    parties: usize,
)
    requires { Ready size (party_of parties me c.now prep.now inputs.now) l.now y at Own
        × (words (gate c.now at.gate) Own ≤ length out.old) }
    ensures { out.new
        ≡ overwrite (own_words ops (party_of parties me c.now prep.now inputs.now)
        l.now at.gate (shape (gate c.now at.gate)).class) out.old }
{
    let j = at.gate;
    let start = at.prep;
    let s = gates::reading::shape_at(c, j);
    let x = gates::reading::first_at(c, j);
    let class = s.class;
    if circuit::shapes::is_in(class) {
        let w = input_word(me, x, &prep[start..], inputs, at.input);
        out[0] = w;
        return;
    }
    let k = s.openings;
    let z = gates::reading::factor_at(c, j, k);
    opening_words(l, y, x, z, &prep[start..], k, out);
}

// The opening of output j, whose record stands at number start of the preprocessing.
#[tactic(auto, using(protocol::proofs::Sent::overwrite_one, protocol::proofs::Readiness::tail_part, crate::proofs::Numbers::share_is))]
fn send_output(
    c: &[Word],
    prep: &[Word],
    l: &[Word],
    y: Layout,
    j: usize,
    start: usize,
    out: &mut [Word],
)
    requires { (gate_size * j + gate_size ≤ length c.now)
        × (start ≤ length prep.now)
        × (is_give (gate c.now j) ≡ true → start + 1 < length prep.now)
        × Below size prep.now
        × (slots_size (layout_of y) ≤ length l.now)
        × Held size (layout_of y) l.now (gate c.now j).first
        × (0 < length out.old) }
    ensures { out.new
        ≡ overwrite ((shown ops (layout_of y) l.now (is_give (gate c.now j)) (gate c.now j).first (drop start prep.now)).share ∷ [])
        out.old }
{
    let x = gates::reading::first_at(c, j);
    let give = gates::reading::is_give_at(c, j);
    let shown = shown_part(l, y, x, give, &prep[start..]);
    out[0] = shown.share;
}

// What a reveal sends: the check share, and the nonce that stands in the scratch.
#[tactic(auto, using(crate::proofs::Marking::revealed_written), unfolding(protocol::specs::Scratch::marks_at, protocol::specs::Scratch::nonce_at))]
pub fn reveal_words(share: Word, l: &[Word], y: Layout, out: &mut [Word])
    requires { (marks_at (layout_of y) ≤ length l.now) × (reveal_words ≤ length out.old) }
    ensures { out.new ≡ overwrite (revealed share (nonce_of (layout_of y) l.now)) out.old }
{
    let start = protocol::nonce_at(y);
    let end = start + NONCE_WORDS;
    out[0] = share;
    sha256::copy(&l[start..end], &mut out[1..REVEAL_WORDS]);
}

// What a commitment sends: the mark of what its reveal will send.
pub fn commit_words(share: Word, l: &[Word], y: Layout, out: &mut [Word])
    requires { (marks_at (layout_of y) ≤ length l.now) × (commit_words ≤ length out.old) }
    ensures { out.new ≡ overwrite (mark (revealed share (nonce_of (layout_of y) l.now))) out.old }
{
    let mut message = [0u32; REVEAL_WORDS];
    reveal_words(share, l, y, &mut message);
    sha256::hash_into(&message, out);
}

// The words of round r into the outgoing list; the check share then held. A commitment notes its nonce in the scratch.
pub fn send_step(
    parties: usize,
    me: usize,
    c: &[Word],
    prep: &[Word],
    inputs: &[Word],
    l: &mut [Word],
    y: Layout,
    at: Site,
    r: Round,
    held: Word,
    coefficients: &[Word],
    nonce: &[u8],
    out: &mut [Word],
) -> Word
    requires { Sends size (party_of parties me c.now prep.now inputs.now) l.old y at (round_of r) held coefficients.now nonce.now (length out.old) }
    ensures held { Is size (holds ops (party_of parties me c.now prep.now inputs.now)
        l.old at.gate (round_of r) coefficients.now) result }
    ensures out { out.new
        ≡ overwrite (sent ops (party_of parties me c.now prep.now inputs.now)
        l.old at.gate held coefficients.now nonce.now (round_of r)) out.old }
    ensures scratch { l.new
        ≡ noted ops (party_of parties me c.now prep.now inputs.now)
        l.old (round_of r) nonce.now }
{
    match r {
        Round::Own => {
            send_own(me, c, prep, inputs, l, y, at, out, parties);
            0
        }
        Round::Open => {
            send_output(c, prep, l, y, at.gate, at.prep, out);
            0
        }
        Round::Commit(_) => {
            let k = circuit::rounds::opened_in(at.unchecked, r);
            let share = check_share(l, y, k, prep[0], coefficients);
            scratch::put_nonce(l, y, nonce);
            commit_words(share, l, y, out);
            share
        }
        Round::Reveal(_) => {
            reveal_words(held, l, y, out);
            0
        }
    }
}
