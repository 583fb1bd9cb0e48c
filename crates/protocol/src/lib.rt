// The online phase as far as no field element is in it: where the numbers of a scratch stand, and the points of a run. What a party sends and
// works out, over any field, is in specs/, and what follows for any field in proofs/.
#![tactic(auto)]

ghost use Rattle.std.specs.Prelude.{◌≡◌, ◌+◌, ◌*◌, ◌≤◌};
ghost use Rattle.circuit.specs.Round.{commit_words};
ghost use Rattle.circuit.specs.Code.{round_of};
ghost use Rattle.protocol.specs.Scratch.{offset, slots_size, nonce_at, marks_at};
ghost use Rattle.protocol.specs.Position.{Send, aborted};
ghost use Rattle.protocol.specs.Entry.{releases};
ghost use Rattle.protocol.specs.Holding.{Within};
ghost use Rattle.protocol.specs.Code.{layout_of, slot_of, point_of};

use circuit::rounds::{COMMIT_WORDS, NONCE_WORDS};
use circuit::{Check, Round};

// How many gates there are, and how many opened entries there is room for.
#[derive(Clone, Copy)]
pub struct Layout {
    pub gates: usize,
    pub capacity: usize,
}

// A place of the scratch.
#[derive(Clone, Copy)]
pub enum Slot {
    Share(usize),
    Mac(usize),
    Value(usize),
    ValueMac(usize),
}

// The sending or the receiving half of a round, or an end.
#[derive(Clone, Copy)]
pub enum Stage {
    Send(Round),
    Receive(Round),
    Finished,
    Aborted,
}

// A gate and a stage.
#[derive(Clone, Copy)]
pub struct Point {
    pub gate: usize,
    pub stage: Stage,
}

// Whom a stop names: the party whose reveal does not fit its mark, or nobody.
pub type Blame = Option<usize>;

// How a round ends: it passes, or it stops the run.
pub type Ruling = Result<(), Blame>;

// Where a gate's numbers stand, for one party: its record in the preprocessing, the unchecked entries before it, the input for it.
#[derive(Clone, Copy)]
pub struct Site {
    pub gate: usize,
    pub prep: usize,
    pub unchecked: usize,
    pub input: usize,
}

// A layout that fits a slice has sums that fit a number.
#[tactic(auto, unfolding(crate::specs::Scratch::offset, crate::specs::Scratch::slots_size, crate::specs::Code::layout_of))]
pub fn offset_of(y: Layout, s: Slot) -> usize
    requires { (slots_size (layout_of y) ≤ 4611686018427387904) × Within (layout_of y) (slot_of s) }
    ensures { result ≡ offset (layout_of y) (slot_of s) }
{
    match s {
        Slot::Share(j) => j,
        Slot::Mac(j) => y.gates + j,
        Slot::Value(t) => y.gates + y.gates + t,
        Slot::ValueMac(t) => y.gates + y.gates + y.capacity + t,
    }
}

// Where the nonce stands in a scratch of that layout.
#[tactic(auto, unfolding(crate::specs::Scratch::nonce_at, crate::specs::Scratch::slots_size, crate::specs::Code::layout_of))]
pub fn nonce_at(y: Layout) -> usize
    requires { slots_size (layout_of y) ≤ 4611686018427387904 }
    ensures { result ≡ nonce_at (layout_of y) }
{
    y.gates + y.gates + y.capacity + y.capacity
}

// Where the marks stand.
#[tactic(auto, unfolding(crate::specs::Scratch::nonce_at, crate::specs::Scratch::marks_at, crate::specs::Scratch::slots_size, crate::specs::Code::layout_of))]
pub fn marks_at(y: Layout) -> usize
    requires { slots_size (layout_of y) ≤ 4611686018427387904 }
    ensures { result ≡ marks_at (layout_of y) }
{
    nonce_at(y) + NONCE_WORDS
}

// How long the scratch of one of so many parties is.
#[tactic(auto, unfolding(crate::specs::Scratch::nonce_at, crate::specs::Scratch::marks_at, crate::specs::Scratch::slots_size, crate::specs::Code::layout_of))]
pub fn size_of(parties: usize, y: Layout) -> usize
    requires { (parties ≤ 8) × (y.gates ≤ 256) × (y.capacity ≤ 513) }
    ensures { result ≡ marks_at (layout_of y) + parties * commit_words }
{
    marks_at(y) + parties * COMMIT_WORDS
}

// The sending half of a round of gate k.
#[tactic(auto, unfolding(crate::specs::Code::point_of))]
pub fn sending_at(k: usize, r: Round) -> Point
    ensures { point_of result ≡ record { gate = k; stage = Send (round_of r) } }
{
    Point {
        gate: k,
        stage: Stage::Send(r),
    }
}

// A run that is aborted names the gate.
#[tactic(auto, unfolding(crate::specs::Code::point_of, crate::specs::Position::aborted))]
pub fn aborted_at(j: usize) -> Point
    ensures { point_of result ≡ aborted j }
{
    Point {
        gate: j,
        stage: Stage::Aborted,
    }
}

// The second check's reveal releases an output.
pub fn releases(r: Round) -> bool
    ensures { result ≡ releases (round_of r) }
{
    matches!(r, Round::Reveal(Check::Second))
}
