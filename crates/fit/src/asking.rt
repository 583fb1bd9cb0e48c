// The questions of the tool.
ghost use Rattle.std.specs.Prelude.{◌≡◌, ℕ, ◌<◌, ◌≤◌, true};
ghost use Rattle.field.specs.Words.{size};
ghost use Rattle.circuit.specs.Gate.{entry, gates};
ghost use Rattle.circuit.specs.Count.{in_count, out_count};
ghost use Rattle.circuit.specs.Accept.{most_gates, is_kind};
ghost use Rattle.circuit.specs.Question.{verdict_of};
ghost use Rattle.ranges.specs.Entry.{query_of, range_ok, is_in_line, ask_ranges, ask_change, move_room_ok, ask_rooms, ask_fit};
ghost use Rattle.fit.specs.Code.{interval_of, change_of};

use crate::{Change, INTERVAL_SIZE, Interval, reaching};
use circuit::counting;
use circuit::questions::{self, Question, Refusal};
use field::{SIZE, Word};
use gates::reading;

// How many gates are in gates.
#[tactic(auto, using(crate::proofs::Questions::tallies), unfolding(circuit::specs::Count::in_count))]
fn ins_of(c: &[Word]) -> usize
    requires { gates c.now ≤ most_gates }
    ensures { result ≡ in_count c.now }
{
    let mut ins = 0;
    for j in 0..crate::gates_of(c) {
        ins += counting::one_if(reading::is_input_at(c, j));
    }
    ins
}

// How many gates are outputs.
#[tactic(auto, using(crate::proofs::Questions::tallies), unfolding(circuit::specs::Count::out_count))]
fn outs_of(c: &[Word]) -> usize
    requires { (gates c.now ≤ most_gates) × ((j : ℕ) → j < gates c.now → is_kind (entry c.now j 0) ≡ true) }
    ensures { result ≡ out_count c.now }
{
    let mut outs = 0;
    for j in 0..crate::gates_of(c) {
        outs += counting::one_if(!reading::has_value_at(c, j));
    }
    outs
}

// Is a range in order, with both ends elements? Where it is in order, the highest tells that.
#[tactic(auto, using(std::proofs::lemmas::Bool::Decides::nat_tests), unfolding(ranges::specs::Entry::range_ok))]
fn range_ok(r: Interval) -> bool
    ensures { result ≡ range_ok size (interval_of r) }
{
    r.lowest <= r.highest && r.highest < SIZE
}

// Question 26.
#[tactic(auto, using(crate::proofs::Questions::ranges_asked), unfolding(ranges::specs::Entry::ask_ranges))]
fn ask_ranges(c: &[Word], ranges: &[Word]) -> Result<(), Refusal>
    requires { gates c.now ≤ most_gates }
    ensures { verdict_of result ≡ ask_ranges size c.now ranges.now }
{
    let ins = ins_of(c);
    questions::ask(Question::Ranges, 0, ranges.len() == INTERVAL_SIZE * ins)?;
    for k in 0..ins {
        let r = reaching::interval_at(ranges, k);
        questions::ask(Question::Ranges, 0, range_ok(r))?;
    }
    Ok(())
}

// Is that an in gate?
#[tactic(auto, using(crate::proofs::Questions::lines), unfolding(ranges::specs::Entry::is_in_line))]
fn is_in_at(c: &[Word], line: usize) -> bool
    ensures { result ≡ is_in_line c.now line }
{
    line < crate::gates_of(c) && reading::is_input_at(c, line)
}

// Question 27.
#[tactic(auto, unfolding(ranges::specs::Entry::ask_change))]
fn ask_change(c: &[Word], change: Option<Change>) -> Result<(), Refusal>
    ensures { verdict_of result ≡ ask_change c.now (change_of change) }
{
    match change {
        Some(change) => questions::ask(Question::Change, 0, is_in_at(c, change.gate)),
        None => Ok(()),
    }
}

// Is there room for the moves of the scores? Without a change there is none, and nothing is counted.
#[tactic(auto, using(std::proofs::lemmas::Bool::Decides::nat_tests))]
fn has_room(change: Option<Change>, c: &[Word], room: usize) -> bool
    requires { (gates c.now ≤ most_gates) × ((j : ℕ) → j < gates c.now → is_kind (entry c.now j 0) ≡ true) }
    ensures { result ≡ move_room_ok (change_of change) (out_count c.now) room }
{
    change.is_none() || outs_of(c) <= room
}

// Question 18.
#[tactic(auto, using(std::proofs::lemmas::Bool::Decides::nat_tests), unfolding(ranges::specs::Entry::ask_rooms))]
fn ask_rooms(change: Option<Change>, c: &[Word], room: usize, places: usize) -> Result<(), Refusal>
    requires { (gates c.now ≤ most_gates) × ((j : ℕ) → j < gates c.now → is_kind (entry c.now j 0) ≡ true) }
    ensures { verdict_of result ≡ ask_rooms c.now (change_of change) room places }
{
    questions::ask(
        Question::Room,
        0,
        INTERVAL_SIZE * crate::gates_of(c) <= room && has_room(change, c, places),
    )
}

// All questions of the tool, of whose lists the first has room for so many numbers and the second for so many.
#[tactic(auto, using(crate::proofs::Questions::fit_asked), unfolding(ranges::specs::Entry::ask_fit))]
pub fn ask(
    parties: usize,
    c: &[Word],
    ranges: &[Word],
    change: Option<Change>,
    room: usize,
    places: usize,
) -> Result<(), Refusal>
    ensures { verdict_of result ≡ ask_fit size (query_of parties c.now ranges.now (change_of change)) room places }
{
    party::asking::ask_setting(parties, c)?;
    ask_ranges(c, ranges)?;
    ask_change(c, change)?;
    ask_rooms(change, c, room, places)
}
