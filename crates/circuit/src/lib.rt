// The circuit format as far as no field element is in it: kinds and what they tell, rounds, counts, and questions.
#![tactic(auto)]

pub mod counting;
pub mod questions;
pub mod rounds;
pub mod shapes;

// Each kind has its number.
#[derive(Clone, Copy, PartialEq, Eq)]
pub enum Kind {
    In = 1,
    Add = 2,
    Sub = 3,
    Plus = 4,
    Times = 5,
    Mul = 6,
    Out = 7,
    Sq = 8,
    Give = 9,
    Over = 10,
}

// Worked out alone; an input of one party; opens values; an output.
#[derive(Clone, Copy, PartialEq, Eq)]
pub enum Class {
    Local,
    Owned,
    Opens,
    Output,
}

// What a number of a gate is for. A divisor is a constant other than 0.
#[derive(Clone, Copy, PartialEq, Eq)]
pub enum Role {
    Unused,
    Party,
    Wire,
    Constant,
    Divisor,
}

// What a kind tells: its class, the numbers that it reads of the preprocessing, how many values it opens, its words, and what its
// numbers are for.
#[derive(Clone, Copy)]
pub struct Shape {
    pub class: Class,
    pub prep: usize,
    pub openings: usize,
    pub words: usize,
    pub first: Role,
    pub second: Role,
    pub constant: Role,
}

// Of what is opened and unchecked before an output, and of the output.
#[derive(Clone, Copy, PartialEq, Eq)]
pub enum Check {
    First,
    Second,
}

// A gate's own round; the opening of an output; the commitment and the reveal of a check.
#[derive(Clone, Copy, PartialEq, Eq)]
pub enum Round {
    Own,
    Open,
    Commit(Check),
    Reveal(Check),
}

// What a whole run takes: numbers of a party's preprocessing, opened entries, in gates, outputs, words of one party, coefficients, checks.
#[derive(Clone, Copy)]
pub struct Totals {
    pub prep: usize,
    pub openings: usize,
    pub ins: usize,
    pub outs: usize,
    pub words: usize,
    pub coefficients: usize,
    pub checks: usize,
}

// What is counted of the gates before one, for one party.
#[derive(Clone, Copy)]
pub struct Tally {
    pub prep: usize,
    pub openings: usize,
    pub unchecked: usize,
    pub inputs: usize,
}
