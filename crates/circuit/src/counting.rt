// What is counted of a gate.
ghost use Rattle.std.specs.Prelude.{◌≡◌, cond, List, ℕ, ◌*◌, ◌≤◌};
ghost use Rattle.circuit.specs.Count.{unchecked_after};
ghost use Rattle.circuit.specs.Round.{shape_words, coefficients_in, commits_in, class_rounds, over_rounds};
ghost use Rattle.circuit.specs.Accept.{most_gates};
ghost use Rattle.circuit.specs.Code.{class_of, shape_of, Tallied};

use crate::{Class, Shape, Tally, rounds, shapes};

pub fn one_if(b: bool) -> usize
    ensures { result ≡ cond b 1 0 }
{
    usize::from(b)
}

// How many entries are unchecked after a gate.
pub fn unchecked_after(s: Shape, unchecked: usize) -> usize
    requires { (unchecked ≤ 2 * most_gates) × (s.openings ≤ 2) }
    ensures { result ≡ unchecked_after (shape_of s) unchecked }
{
    if shapes::is_out(s.class) {
        0
    } else {
        unchecked + s.openings
    }
}

// How many words a party sends in all rounds of a gate.
pub fn words_of(s: Shape, unchecked: usize) -> usize
    requires { s.words ≤ 2 }
    ensures { result ≡ over_rounds (shape_words (shape_of s)) (class_rounds unchecked (class_of s.class)) }
{
    let check = rounds::COMMIT_WORDS + rounds::REVEAL_WORDS;
    match s.class {
        Class::Local => 0,
        Class::Owned | Class::Opens => s.words,
        Class::Output if unchecked == 0 => s.words + check,
        Class::Output => check + s.words + check,
    }
}

// How many coefficients all rounds of a gate take.
pub fn coefficients_of(s: Shape, unchecked: usize) -> usize
    requires { unchecked ≤ 2 * most_gates }
    ensures { result ≡ over_rounds (coefficients_in unchecked) (class_rounds unchecked (class_of s.class)) }
{
    if shapes::is_out(s.class) {
        unchecked + 1
    } else {
        0
    }
}

// How many checks a gate has.
pub fn checks_of(s: Shape, unchecked: usize) -> usize
    ensures { result ≡ over_rounds commits_in (class_rounds unchecked (class_of s.class)) }
{
    match s.class {
        Class::Output if unchecked == 0 => 1,
        Class::Output => 2,
        Class::Local | Class::Owned | Class::Opens => 0,
    }
}

// Nothing is counted yet.
pub fn no_tally() -> Tally
    ensures { (c : List ℕ) (i : ℕ) → Tallied c i 0 result }
{
    Tally {
        prep: 1,
        openings: 0,
        unchecked: 0,
        inputs: 0,
    }
}
