// What one gate comes to.
ghost use Rattle.std.specs.Prelude.{◌≡◌, ℕ, ◌+◌, ◌*◌, ◌-◌, ◌%◌, ◌<◌, ◌≤◌, length};
ghost use Rattle.field.specs.Words.{size};
ghost use Rattle.circuit.specs.Gate.{gate_size};
ghost use Rattle.circuit.specs.Kind.{is_in};
ghost use Rattle.circuit.specs.Count.{count};
ghost use Rattle.circuit.specs.Code.{kind_of};
ghost use Rattle.ranges.specs.Interval.{interval, interval_size, interval_at, up_to, kind_reach, reach};
ghost use Rattle.fit.specs.Code.{interval_of, reach_of, Fair, FairReach, Named};

use crate::{INTERVAL_SIZE, Interval};
use circuit::Kind;
use field::{SIZE, Sum, Word};
use gates::reading;

// The size of the field, as a number that sums and products are compared with.
const LIMIT: Sum = SIZE as u64;

// Interval k of a list.
#[tactic(auto, unfolding(ranges::specs::Interval::interval_at))]
pub fn interval_at(l: &[Word], k: usize) -> Interval
    requires { interval_size * k + 1 < length l.now }
    ensures { interval_of result ≡ interval_at l.now k }
{
    let at = INTERVAL_SIZE * k;
    Interval {
        lowest: l[at],
        highest: l[at + 1],
    }
}

// The range of the in gate after so many, and nothing after the last.
#[tactic(auto, using(crate::proofs::Ends::range_none))]
fn range_at(ranges: &[Word], ins: usize) -> Interval
    requires { (interval_size * ins ≤ length ranges.now) × (length ranges.now % interval_size ≡ 0) }
    ensures { interval_of result ≡ interval_at ranges.now ins }
{
    if INTERVAL_SIZE * ins < ranges.len() {
        return interval_at(ranges, ins);
    }
    Interval {
        lowest: 0,
        highest: 0,
    }
}

// These ends, if the highest is an element.
#[tactic(auto, using(std::proofs::lemmas::Bool::Decides::nat_tests), unfolding(ranges::specs::Interval::up_to))]
fn up_to(lowest: Sum, highest: Sum) -> Option<Interval>
    requires { lowest ≤ highest }
    ensures { (reach_of result ≡ up_to size lowest highest) × FairReach (reach_of result) }
{
    if highest < LIMIT {
        return Some(Interval {
            lowest: lowest as u32,
            highest: highest as u32,
        });
    }
    None
}

// A constant alone.
fn only(k: Word) -> Interval
    ensures { interval_of result ≡ interval k k }
{
    Interval {
        lowest: k,
        highest: k,
    }
}

// A difference, of a lowest end that is not below the other's highest.
fn difference(x: Interval, z: Interval) -> Option<Interval>
    requires { Fair (interval_of x) × Fair (interval_of z) × (z.highest ≤ x.lowest) }
    ensures { (reach_of result ≡ up_to size (x.lowest - z.highest) (x.highest - z.lowest)) × FairReach (reach_of result) }
{
    up_to((x.lowest - z.highest) as u64, (x.highest - z.lowest) as u64)
}

fn sum(x: Interval, z: Interval) -> Option<Interval>
    requires { Fair (interval_of x) × (z.lowest ≤ z.highest) }
    ensures { (reach_of result ≡ up_to size (x.lowest + z.lowest) (x.highest + z.highest)) × FairReach (reach_of result) }
{
    up_to(
        (x.lowest as u64) + (z.lowest as u64),
        (x.highest as u64) + (z.highest as u64),
    )
}

fn product(x: Interval, z: Interval) -> Option<Interval>
    requires { Fair (interval_of x) × (z.lowest ≤ z.highest) }
    ensures { (reach_of result ≡ up_to size (x.lowest * z.lowest) (x.highest * z.highest)) × FairReach (reach_of result) }
{
    up_to(
        (x.lowest as u64) * (z.lowest as u64),
        (x.highest as u64) * (z.highest as u64),
    )
}

// What a gate of a kind comes to, of the range given for it, the intervals of the gates that it names, and its constant. An over counts as leaving.
#[tactic(auto, using(std::proofs::lemmas::Bool::Decides::nat_tests), unfolding(ranges::specs::Interval::kind_reach, ranges::specs::Interval::up_to))]
fn kind_reach(kind: Kind, r: Interval, x: Interval, z: Interval, k: Word) -> Option<Interval>
    requires { Fair (interval_of r) × Fair (interval_of x) × Fair (interval_of z) }
    ensures { (reach_of result ≡ kind_reach size (kind_of kind) (interval_of r) (interval_of x) (interval_of z) k) × FairReach (reach_of result) }
{
    match kind {
        Kind::In => Some(r),
        Kind::Add => sum(x, z),
        Kind::Sub => {
            if x.lowest < z.highest {
                return None;
            }
            difference(x, z)
        }
        Kind::Plus => sum(x, only(k)),
        Kind::Times => product(x, only(k)),
        Kind::Mul => product(x, z),
        Kind::Out => Some(only(0)),
        Kind::Sq => product(x, x),
        Kind::Give => Some(only(0)),
        Kind::Over => None,
    }
}

// What gate j comes to, where the gates before it have the intervals that stand in a list, and so many of them are in gates.
pub fn reach_at(
    c: &[Word],
    j: usize,
    ranges: &[Word],
    ins: usize,
    ends: &[Word],
) -> Option<Interval>
    requires { (gate_size * j + gate_size ≤ length c.now)
        × (ins ≡ count is_in c.now j)
        × (interval_size * ins ≤ length ranges.now)
        × (length ranges.now % interval_size ≡ 0)
        × ((x : ℕ) → Fair (interval_at ranges.now x))
        × ((x : ℕ) → Fair (interval_at ends.now x))
        × Named c.now j ends.now }
    ensures { (reach_of result ≡ reach size c.now ranges.now ends.now j) × FairReach (reach_of result) }
{
    let kind = reading::kind_at(c, j);
    let r = range_at(ranges, ins);
    let x = interval_at(ends, reading::first_at(c, j));
    let z = interval_at(ends, reading::second_at(c, j));
    kind_reach(kind, r, x, z, reading::constant_at(c, j))
}
