// The steps of one party of the online phase: what it sends in each round, and what it works out of the words received. Nothing is asked
// here: what a step needs is what the entries have asked.
#![tactic(auto)]

mod parts;
pub mod receiving;
pub mod scratch;
pub mod sending;

pub use parts::Part;
use protocol::{Point, Ruling};

// The first and the last word of a party in a round, or running sums of those of some parties.
#[derive(Clone, Copy)]
pub struct Ends<T> {
    pub first: T,
    pub last: T,
}

// What the words of all come to: how the round ends, and the point that follows.
#[derive(Clone, Copy)]
pub struct Conclusion {
    pub ruling: Ruling,
    pub point: Point,
}
