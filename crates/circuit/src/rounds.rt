// What a round is and takes.
ghost use Rattle.std.specs.Prelude.{◌≡◌};
ghost use Rattle.circuit.specs.Round.{is_commit, is_reveal, shape_words, checked, opened_in, coefficients_in, nonce_in, has_check, class_rounds, among};
ghost use Rattle.circuit.specs.Code.{class_of, check_of, round_of, shape_of};

use crate::{Check, Class, Round, Shape, shapes};

// Words of a commitment.
pub const COMMIT_WORDS: usize = 8;

// Bytes of a nonce, and its words.
pub const NONCE_SIZE: usize = 32;

pub const NONCE_WORDS: usize = 8;

// Words of a reveal.
pub const REVEAL_WORDS: usize = 9;

pub fn is_commit(r: Round) -> bool
    ensures { result ≡ is_commit (round_of r) }
{
    matches!(r, Round::Commit(_))
}

pub fn is_reveal(r: Round) -> bool
    ensures { result ≡ is_reveal (round_of r) }
{
    matches!(r, Round::Reveal(_))
}

// How many words a party sends in a round.
#[tactic(auto, unfolding(crate::specs::Round::shape_words, crate::specs::Code::shape_of))]
pub fn words_in(s: Shape, r: Round) -> usize
    ensures { result ≡ shape_words (shape_of s) (round_of r) }
{
    match r {
        Round::Own | Round::Open => s.words,
        Round::Commit(_) => COMMIT_WORDS,
        Round::Reveal(_) => REVEAL_WORDS,
    }
}

// How many entries a check is of, where that many were unchecked when its gate was reached.
fn checked_in(unchecked: usize, check: Check) -> usize
    ensures { result ≡ checked unchecked (check_of check) }
{
    match check {
        Check::First => unchecked,
        Check::Second => 1,
    }
}

// How many entries are opened and unchecked in a round.
pub fn opened_in(unchecked: usize, r: Round) -> usize
    ensures { result ≡ opened_in unchecked (round_of r) }
{
    match r {
        Round::Own => unchecked,
        Round::Open => 0,
        Round::Commit(check) | Round::Reveal(check) => checked_in(unchecked, check),
    }
}

// How many coefficients a round takes.
#[tactic(auto, unfolding(crate::specs::Round::coefficients_in))]
pub fn coefficients_in(unchecked: usize, r: Round) -> usize
    ensures { result ≡ coefficients_in unchecked (round_of r) }
{
    if is_commit(r) {
        opened_in(unchecked, r)
    } else {
        0
    }
}

// Is there that check at an output before which that many entries are unchecked?
fn has_check(unchecked: usize, check: Check) -> bool
    ensures { result ≡ has_check unchecked (check_of check) }
{
    match check {
        Check::First => unchecked != 0,
        Check::Second => true,
    }
}

// Is r one of the rounds of a gate before which that many entries are unchecked?
#[tactic(auto, using(crate::proofs::RoundLaws::is_among))]
pub fn has_round(class: Class, unchecked: usize, r: Round) -> bool
    ensures { result ≡ among (round_of r) (class_rounds unchecked (class_of class)) }
{
    match r {
        Round::Own => shapes::is_in(class) || shapes::opens(class),
        Round::Open => shapes::is_out(class),
        Round::Commit(check) | Round::Reveal(check) => {
            shapes::is_out(class) && has_check(unchecked, check)
        }
    }
}

// How many bytes of a nonce are handed over in a round.
#[tactic(auto, unfolding(crate::specs::Round::nonce_in))]
pub fn nonce_in(r: Round) -> usize
    ensures { result ≡ nonce_in (round_of r) }
{
    if is_commit(r) { NONCE_SIZE } else { 0 }
}
