// How far one gate moves.
ghost use Rattle.std.specs.Prelude.{◌≡◌, List, ℕ, ◌+◌, ◌*◌, ◌<◌, ◌≤◌, length, get_or};
ghost use Rattle.algebra.specs.Element.{Is};
ghost use Rattle.field.specs.Words.{size};
ghost use Rattle.circuit.specs.Gate.{gate_size, gate};
ghost use Rattle.circuit.specs.Code.{kind_of};
ghost use Rattle.ranges.specs.Interval.{interval_at};
ghost use Rattle.ranges.specs.Move.{Of, change_at, kind_move, capped, gate_move};
ghost use Rattle.fit.specs.Code.{interval_of, Fair, Named};

use crate::{Change, Interval, reaching};
use circuit::Kind;
use field::{SIZE, Sum, Word};
use gates::reading;

const LIMIT: Sum = SIZE as u64;

// A move is at most the largest element.
#[tactic(auto, using(std::proofs::lemmas::Bool::Decides::nat_tests), unfolding(ranges::specs::Move::capped))]
fn capped(m: Sum) -> Word
    ensures { Is size (capped size m) result }
{
    m.min(LIMIT - 1) as u32
}

// How far a product moves: the highest first times the move of the second, and the highest second times the move of the first.
#[tactic(auto, using(crate::proofs::Ends::elements_low))]
fn product_move(x: Word, z: Word, mx: Word, mz: Word) -> Sum
    requires { (x < size) × (z < size) × (mx < size) × (mz < size) }
    ensures { result ≡ x * mz + z * mx }
{
    (x as u64) * (mz as u64) + (z as u64) * (mx as u64)
}

// How far a gate of a kind moves, of what its input changes by, and of the intervals and the moves of the gates that it names.
#[tactic(auto, using(crate::proofs::Ends::product_low), unfolding(ranges::specs::Move::kind_move))]
fn kind_move(kind: Kind, change: Word, x: Interval, z: Interval, mx: Word, mz: Word, k: Word) -> Sum
    requires { Fair (interval_of x) × Fair (interval_of z) × (mx < size) × (mz < size) }
    ensures { result ≡ kind_move (kind_of kind) change (interval_of x) (interval_of z) mx mz k }
{
    match kind {
        Kind::In => change as u64,
        Kind::Add => (mx as u64) + (mz as u64),
        Kind::Sub => (mx as u64) + (mz as u64),
        Kind::Plus => mx as u64,
        Kind::Times => (mx as u64) * (k as u64),
        Kind::Mul => product_move(x.highest, z.highest, mx, mz),
        Kind::Out => 0,
        Kind::Sq => product_move(x.highest, x.highest, mx, mx),
        Kind::Give => 0,
        Kind::Over => 0,
    }
}

// What the input of gate j changes by, where that of another gate changes.
#[tactic(auto, using(std::proofs::lemmas::Bool::Decides::nat_tests))]
fn change_at(j: usize, change: Change) -> Word
    ensures { result ≡ change_at (Of change.gate change.amount) j }
{
    if j == change.gate {
        return change.amount;
    }
    0
}

// The move of gate j, where the gates before it have the intervals and the moves that stand in two lists.
pub fn move_at(c: &[Word], j: usize, change: Change, ends: &[Word], moves: &[Word]) -> Word
    requires { (gate_size * j + gate_size ≤ length c.now)
        × ((x : ℕ) → Fair (interval_at ends.now x))
        × ((x : ℕ) → get_or moves.now x 0 < size)
        × Named c.now j ends.now
        × ((gate c.now j).first < length moves.now)
        × ((gate c.now j).second < length moves.now) }
    ensures { (ranges : List ℕ) → Is size (gate_move size c.now ranges (Of change.gate change.amount) ends.now moves.now j) result }
{
    let kind = reading::kind_at(c, j);
    let first = reading::first_at(c, j);
    let second = reading::second_at(c, j);
    let x = reaching::interval_at(ends, first);
    let z = reaching::interval_at(ends, second);
    let k = reading::constant_at(c, j);
    capped(kind_move(
        kind,
        change_at(j, change),
        x,
        z,
        moves[first],
        moves[second],
        k,
    ))
}
