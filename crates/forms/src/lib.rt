// Sheets, circuits as text: the words of forms and what follows each. What a sheet is, which circuit it is, and how it is read are in specs/,
// what follows of them in proofs/. There are no functions here.
#![tactic(auto)]

// The words that begin a form.
#[derive(Clone, Copy, PartialEq, Eq)]
pub enum Head {
    In,
    Add,
    Sub,
    Plus,
    Times,
    Mul,
    Out,
    Line,
    Sq,
    Give,
    Over,
}

// What follows a word: a number; a form; two forms; a form and a number.
#[derive(Clone, Copy, PartialEq, Eq)]
pub enum Sort {
    Leaf,
    One,
    Two,
    Scaled,
}
