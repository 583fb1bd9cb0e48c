// The entry for callers in C that asks whether a circuit fits.
ghost use Rattle.std.specs.Prelude.{◌≡◌, length};
ghost use Rattle.field.specs.Words.{size};
ghost use Rattle.protocol.specs.Send.{overwrite};
ghost use Rattle.protocol.specs.Entry.{leave};
ghost use Rattle.ranges.specs.Entry.{query_of, fit_answer, fit_intervals, fit_moves};
ghost use Rattle.capi.specs.Calls.{returned};
ghost use Rattle.capi.specs.Fits.{change_at, fit_numbers, fit_call};

use capi::Refusal;
use field::Word;

// Whether a circuit fits. Where its answer has no room, its intervals have none: no accepted circuit is empty, so that nothing is written.
#[unsafe(no_mangle)]
pub extern "C" fn spdz_will_fit(
    parties: usize,
    c: &[Word],
    ranges: &[Word],
    changes: u32,
    gate: usize,
    amount: Word,
    intervals: &mut [Word],
    moves: &mut [Word],
    answer: &mut [u64],
) -> Refusal
    ensures returned { result
        ≡ returned (fit_call (query_of parties c.now ranges.now (change_at changes gate amount))
        intervals.old moves.old answer.old) }
    ensures answer { answer.new
        ≡ leave (fit_call (query_of parties c.now ranges.now (change_at changes gate amount))
        intervals.old moves.old answer.old)
        (overwrite (fit_numbers (fit_answer size (query_of parties c.now ranges.now (change_at changes gate amount))
        (length intervals.old) (length moves.old))) answer.old)
        answer.old }
    ensures intervals { intervals.new
        ≡ leave (fit_call (query_of parties c.now ranges.now (change_at changes gate amount))
        intervals.old moves.old answer.old)
        (fit_intervals size (query_of parties c.now ranges.now (change_at changes gate amount))
        intervals.old (length moves.old))
        intervals.old }
    ensures moves { moves.new
        ≡ leave (fit_call (query_of parties c.now ranges.now (change_at changes gate amount))
        intervals.old moves.old answer.old)
        (fit_moves size (query_of parties c.now ranges.now (change_at changes gate amount))
        (length intervals.old) moves.old)
        moves.old }
{
    capi::fits::spdz_will_fit(
        parties, c, ranges, changes, gate, amount, intervals, moves, answer,
    )
}
