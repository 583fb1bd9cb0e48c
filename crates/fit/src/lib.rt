// Will it fit: which numbers the wires of a circuit can take, and how far one input can move a score.
#![tactic(auto)]

pub mod asking;
pub mod moving;
pub mod reaching;
pub mod working;

ghost use Rattle.std.specs.Prelude.{◌≡◌, length};
ghost use Rattle.field.specs.Words.{size};
ghost use Rattle.circuit.specs.Gate.{gates};
ghost use Rattle.ranges.specs.Entry.{query_of, fit_answer, fit_intervals, fit_moves};
ghost use Rattle.fit.specs.Code.{change_of, answer_of};

use circuit::questions::Refusal;
use field::Word;
use gates::reading;

// An in gate and the largest change of its input.
#[derive(Clone, Copy, PartialEq, Eq)]
pub struct Change {
    pub gate: usize,
    pub amount: Word,
}

// The numbers from a lowest to a highest.
#[derive(Clone, Copy, PartialEq, Eq)]
pub struct Interval {
    pub lowest: Word,
    pub highest: Word,
}

// Numbers of an interval.
pub const INTERVAL_SIZE: usize = 2;

// How many gates a circuit has.
#[tactic(auto, unfolding(circuit::specs::Gate::gates))]
fn gates_of(c: &[Word]) -> usize
    ensures { result ≡ gates c.now }
{
    c.len() / reading::GATE_SIZE
}

// The entry: the gate that leaves, if one does. The intervals and the moves are worked out in lists of the tool's own, so that nothing is written where a gate leaves.
pub fn will_fit(
    parties: usize,
    c: &[Word],
    ranges: &[Word],
    change: Option<Change>,
    intervals: &mut [Word],
    moves: &mut [Word],
) -> Result<Option<usize>, Refusal>
    ensures answer { answer_of result
        ≡ fit_answer size (query_of parties c.now ranges.now (change_of change)) (length intervals.old) (length moves.old) }
    ensures intervals { intervals.new
        ≡ fit_intervals size (query_of parties c.now ranges.now (change_of change)) intervals.old (length moves.old) }
    ensures moves { moves.new
        ≡ fit_moves size (query_of parties c.now ranges.now (change_of change)) (length intervals.old) moves.old }
{
    asking::ask(parties, c, ranges, change, intervals.len(), moves.len())?;
    let mut worked = working::blank();
    match worked.walk(c, ranges, change) {
        Ok(()) => {
            let numbers = INTERVAL_SIZE * gates_of(c);
            sha256::copy(&worked.ends[..numbers], intervals);
            sha256::copy(&worked.scores[..worked.outs], moves);
            Ok(None)
        }
        Err(gate) => Ok(Some(gate)),
    }
}
