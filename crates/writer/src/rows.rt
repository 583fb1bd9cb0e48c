// A gate as a row.
ghost use Rattle.std.specs.Prelude.{◌≡◌, ◌+◌, ◌*◌, ◌≤◌, length};
ghost use Rattle.circuit.specs.Gate.{gate_size};
ghost use Rattle.circuit.specs.Code.{role_of};
ghost use Rattle.forms.specs.Words.{shape_of};
ghost use Rattle.forms.specs.Entry.{head_of, counted, number_of, row_of};
ghost use Rattle.writer.specs.Code.{form_in, row_text, row_room};

use crate::Form;
use circuit::Role;
use field::Word;
use forms::{Head, Sort};
use gates::reading;
use tokens::table;

// The word whose form makes a gate of this kind, or the word of a name.
#[tactic(auto, unfolding(forms::specs::Entry::head_of, forms::specs::Entry::picked))]
fn head_of(kind: Word) -> Head
    ensures { result ≡ head_of kind }
{
    match kind {
        1 => Head::In,
        2 => Head::Add,
        3 => Head::Sub,
        4 => Head::Plus,
        5 => Head::Times,
        6 => Head::Mul,
        7 => Head::Out,
        8 => Head::Sq,
        9 => Head::Give,
        10 => Head::Over,
        _ => Head::Line,
    }
}

// A number of a gate, if its form has it as its number; else 0.
#[tactic(auto, unfolding(forms::specs::Entry::counted))]
fn counted(role: Role, x: Word) -> Word
    ensures { result ≡ counted (role_of role) x }
{
    match role {
        Role::Unused => 0,
        Role::Party => x,
        Role::Wire => 0,
        Role::Constant => x,
        Role::Divisor => x,
    }
}

// The number of a word's form, of the numbers of its gate.
fn number_of(h: Head, first: Word, second: Word, constant: Word) -> usize
    ensures { result ≡ number_of (shape_of h) first second constant }
{
    let row = table::row(h);
    field::index(counted(row.first, first))
        + field::index(counted(row.second, second))
        + field::index(counted(row.constant, constant))
}

// The row of gate j.
pub fn form_at(c: &[Word], j: usize) -> Form
    requires { gate_size * j + gate_size ≤ length c.now }
    ensures { (form_in result ≡ row_of c.now j) × (length (row_text (form_in result)) ≤ row_room) }
{
    let at = reading::GATE_SIZE * j;
    let head = head_of(c[at]);
    let number = number_of(head, c[at + 1], c[at + 2], c[at + 3]);
    let first = field::index(c[at + 1]);
    let second = field::index(c[at + 2]);
    let row = table::row(head);
    match row.sort {
        Sort::Leaf => Form::Leaf { head, number },
        Sort::One => Form::One { head, first },
        Sort::Two => Form::Two {
            head,
            first,
            second,
        },
        Sort::Scaled => Form::Scaled {
            head,
            first,
            number,
        },
    }
}
