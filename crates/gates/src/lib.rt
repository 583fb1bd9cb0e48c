// A circuit's numbers as gates: what a gate's four numbers say, questions 3 to 7, and what is counted along the circuit.
#![tactic(auto)]

pub mod asking;
pub mod counting;
pub mod reading;

use circuit::Tally;

// What is counted of an accepted circuit before a gate and in all.
#[derive(Clone, Copy)]
pub struct Survey {
    pub here: Tally,
    pub all: Tally,
}
