// The entry for callers in C that asks whether a circuit fits.
ghost use Rattle.std.specs.Prelude.{◌≡◌, ◌≤◌, length};
ghost use Rattle.field.specs.Words.{size};
ghost use Rattle.protocol.specs.Send.{overwrite};
ghost use Rattle.protocol.specs.Entry.{leave};
ghost use Rattle.ranges.specs.Entry.{query_of, fit_answer, fit_intervals, fit_moves};
ghost use Rattle.fit.specs.Code.{change_of, answer_of};
ghost use Rattle.capi.specs.Numbers.{places};
ghost use Rattle.capi.specs.Calls.{returned};
ghost use Rattle.capi.specs.Fits.{change_at, fit_numbers, fit_call};

use crate::Refusal;
use circuit::questions;
use field::Word;
use fit::Change;

// The first number of the answer where every gate fits, and where one leaves.
const FITS: u64 = 6;

const LEAVES: u64 = 7;

// The number that says that no change is given.
const NO_CHANGE: u32 = 0;

#[tactic(auto, unfolding(crate::specs::Fits::change_at))]
fn change_at(changes: u32, gate: usize, amount: Word) -> Option<Change>
    ensures { change_of result ≡ change_at changes gate amount }
{
    if changes == NO_CHANGE {
        None
    } else {
        Some(Change { gate, amount })
    }
}

// Nothing is written of a refusal.
#[tactic(auto, unfolding(fit::specs::Code::answer_of, crate::specs::Fits::fit_numbers, protocol::specs::Send::overwrite))]
fn put_fit(answer: &mut [u64], a: Result<Option<usize>, questions::Refusal>)
    requires { places ≤ length answer.old }
    ensures { answer.new ≡ overwrite (fit_numbers (answer_of a)) answer.old }
{
    match a {
        Ok(Some(gate)) => crate::put(answer, &[LEAVES, gate as u64, 0, 0, 0, 0]),
        Ok(None) => crate::put(answer, &[FITS, 0, 0, 0, 0, 0]),
        Err(_) => {}
    }
}

// Whether a circuit fits. Where its answer has no room, its intervals have none: no accepted circuit is empty, so that nothing is written.
pub fn spdz_will_fit(
    parties: usize,
    c: &[Word],
    ranges: &[Word],
    changes: u32,
    gate: usize,
    amount: Word,
    intervals: &mut [Word],
    moves: &mut [Word],
    answer: &mut [u64],
) -> Refusal
    ensures returned { result
        ≡ returned (fit_call (query_of parties c.now ranges.now (change_at changes gate amount))
        intervals.old moves.old answer.old) }
    ensures answer { answer.new
        ≡ leave (fit_call (query_of parties c.now ranges.now (change_at changes gate amount))
        intervals.old moves.old answer.old)
        (overwrite (fit_numbers (fit_answer size (query_of parties c.now ranges.now (change_at changes gate amount))
        (length intervals.old) (length moves.old))) answer.old)
        answer.old }
    ensures intervals { intervals.new
        ≡ leave (fit_call (query_of parties c.now ranges.now (change_at changes gate amount))
        intervals.old moves.old answer.old)
        (fit_intervals size (query_of parties c.now ranges.now (change_at changes gate amount))
        intervals.old (length moves.old))
        intervals.old }
    ensures moves { moves.new
        ≡ leave (fit_call (query_of parties c.now ranges.now (change_at changes gate amount))
        intervals.old moves.old answer.old)
        (fit_moves size (query_of parties c.now ranges.now (change_at changes gate amount))
        (length intervals.old) moves.old)
        moves.old }
{
    let change = change_at(changes, gate, amount);
    if answer.len() < crate::PLACES {
        return crate::returned_of(&fit::will_fit(
            parties,
            c,
            ranges,
            change,
            &mut intervals[..0],
            moves,
        ));
    }
    let a = fit::will_fit(parties, c, ranges, change, intervals, moves);
    put_fit(answer, a);
    crate::returned_of(&a)
}
