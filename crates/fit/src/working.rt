// The walk over all gates: their intervals, and where a change is given their moves.
ghost use Rattle.std.specs.Prelude.{◌≡◌, ℕ, ◌+◌, ◌*◌, ◌<◌, ◌≤◌, length, set};
ghost use Rattle.field.specs.Words.{size};
ghost use Rattle.circuit.specs.Gate.{gates};
ghost use Rattle.circuit.specs.Count.{in_count};
ghost use Rattle.circuit.specs.Accept.{most_gates};
ghost use Rattle.ranges.specs.Interval.{interval_size, interval_at};
ghost use Rattle.ranges.specs.Move.{Of};
ghost use Rattle.ranges.specs.Entry.{finding};
ghost use Rattle.fit.specs.Code.{change_of, Fair, interval_room, Tame, Blank, Apt, Stepped, found_of, Walked};

use crate::{Change, INTERVAL_SIZE, Interval, moving, reaching};
use circuit::counting;
use field::Word;
use gates::reading;

// Room for the intervals of as many gates as there may be, and for their moves.
const INTERVAL_ROOM: usize = INTERVAL_SIZE * gates::asking::MOST_GATES;

const MOVE_ROOM: usize = gates::asking::MOST_GATES;

// What is worked out of the gates gone past: of each its interval, and where a change is given its move; and of the outputs among them the moves of
// their scores, so many.
#[derive(Drop)]
pub struct Worked {
    pub ends: [Word; INTERVAL_ROOM],
    pub moves: [Word; MOVE_ROOM],
    pub scores: [Word; MOVE_ROOM],
    pub outs: usize,
}

// Nothing is worked out yet.
pub fn blank() -> Worked
    ensures { Blank result }
{
    Worked {
        ends: [0; INTERVAL_ROOM],
        moves: [0; MOVE_ROOM],
        scores: [0; MOVE_ROOM],
        outs: 0,
    }
}

impl Worked {
    // The interval of gate j.
    fn put_interval(&mut self, j: usize, i: Interval)
        requires { interval_size * j + 1 < interval_room }
        ensures ends { self.new.ends ≡ set (set self.old.ends (interval_size * j) i.lowest) (interval_size * j + 1) i.highest }
        ensures others { (self.new.moves ≡ self.old.moves) × (self.new.scores ≡ self.old.scores) × (self.new.outs ≡ self.old.outs) }
    {
        let at = INTERVAL_SIZE * j;
        self.ends[at] = i.lowest;
        self.ends[at + 1] = i.highest;
    }

    // The move of gate j, and where it is an output its score's, which is that of the gate that it names.
    fn follow(&mut self, c: &[Word], j: usize, change: Change)
        requires { Apt c.now j self.old }
        ensures { Stepped c.now (Of change.gate change.amount) j self.old self.new }
    {
        let m = moving::move_at(c, j, change, &self.ends, &self.moves);
        let first = reading::first_at(c, j);
        if !reading::has_value_at(c, j) {
            self.scores[self.outs] = self.moves[first];
            self.outs += 1;
            self.moves[j] = m;
            return;
        }
        self.moves[j] = m;
    }

    // A step past gate j. Without a change there is no move.
    #[tactic(auto, using(crate::proofs::Walks::stepped_nothing))]
    fn step(&mut self, c: &[Word], j: usize, change: Option<Change>)
        requires { Apt c.now j self.old }
        ensures { Stepped c.now (change_of change) j self.old self.new }
    {
        match change {
            Some(change) => self.follow(c, j, change),
            None => {}
        }
    }

    // All gates in order, as far as the first that leaves. Nothing is worked out before.
    pub fn walk(&mut self, c: &[Word], ranges: &[Word], change: Option<Change>) -> Result<(), usize>
        requires { (gates c.now ≤ most_gates)
            × ((j : ℕ) → j < gates c.now → Tame c.now j)
            × (length ranges.now ≡ interval_size * in_count c.now)
            × ((x : ℕ) → Fair (interval_at ranges.now x))
            × Blank self.old }
        ensures found { found_of result ≡ finding size c.now ranges.now (gates c.now) }
        ensures lists { Walked (change_of change) c.now ranges.now self.new result }
    {
        let mut ins = 0;
        for j in 0..crate::gates_of(c) {
            let Some(i) = reaching::reach_at(c, j, ranges, ins, &self.ends) else {
                return Err(j);
            };
            self.step(c, j, change);
            self.put_interval(j, i);
            ins += counting::one_if(reading::is_input_at(c, j));
        }
        Ok(())
    }
}
