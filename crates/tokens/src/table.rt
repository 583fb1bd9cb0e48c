// The table of words: all of them in their order, and of each its letters and its row.
ghost use Rattle.std.specs.Prelude.{◌≡◌};
ghost use Rattle.tokens.specs.Code.{RowOf, valued_row};
ghost use Rattle.forms.specs.Words.{letters};

use crate::Row;
use circuit::Role;
use field::Word;
use forms::{Head, Sort};

// All words, in the order in which they are asked.
pub const HEADS: [Head; 11] = [
    Head::In,
    Head::Add,
    Head::Sub,
    Head::Plus,
    Head::Times,
    Head::Mul,
    Head::Out,
    Head::Line,
    Head::Sq,
    Head::Give,
    Head::Over,
];

// The letters of a word.
pub fn letters(h: Head) -> &'static [u8]
    ensures { result.now ≡ letters h }
{
    match h {
        Head::In => b"in",
        Head::Add => b"add",
        Head::Sub => b"sub",
        Head::Plus => b"plus",
        Head::Times => b"times",
        Head::Mul => b"mul",
        Head::Out => b"out",
        Head::Line => b"line",
        Head::Sq => b"sq",
        Head::Give => b"give",
        Head::Over => b"over",
    }
}

// A row of a word with a gate that has a value.
fn valued(length: usize, sort: Sort, kind: Word, first: Role, second: Role, constant: Role) -> Row
    ensures { result ≡ valued_row length sort kind first second constant }
{
    Row {
        length,
        sort,
        kind,
        naming: false,
        valued: true,
        first,
        second,
        constant,
    }
}

#[inline(always)]
pub fn row(h: Head) -> Row
    ensures { RowOf h result }
{
    match h {
        Head::In => valued(2, Sort::Leaf, 1, Role::Party, Role::Unused, Role::Unused),
        Head::Add => valued(3, Sort::Two, 2, Role::Wire, Role::Wire, Role::Unused),
        Head::Sub => valued(3, Sort::Two, 3, Role::Wire, Role::Wire, Role::Unused),
        Head::Plus => valued(4, Sort::Scaled, 4, Role::Wire, Role::Unused, Role::Constant),
        Head::Times => valued(5, Sort::Scaled, 5, Role::Wire, Role::Unused, Role::Constant),
        Head::Mul => valued(3, Sort::Two, 6, Role::Wire, Role::Wire, Role::Unused),
        Head::Out => Row {
            length: 3,
            sort: Sort::One,
            kind: 7,
            naming: false,
            valued: false,
            first: Role::Wire,
            second: Role::Unused,
            constant: Role::Unused,
        },
        Head::Line => Row {
            length: 4,
            sort: Sort::Leaf,
            kind: 0,
            naming: true,
            valued: false,
            first: Role::Wire,
            second: Role::Unused,
            constant: Role::Unused,
        },
        Head::Sq => valued(2, Sort::One, 8, Role::Wire, Role::Unused, Role::Unused),
        Head::Give => Row {
            length: 4,
            sort: Sort::Scaled,
            kind: 9,
            naming: false,
            valued: false,
            first: Role::Wire,
            second: Role::Party,
            constant: Role::Unused,
        },
        Head::Over => valued(4, Sort::Scaled, 10, Role::Wire, Role::Unused, Role::Divisor),
    }
}
