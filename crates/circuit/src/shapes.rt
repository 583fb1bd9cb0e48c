// What a kind tells. One match over the kinds; everything else goes by the shape.
ghost use Rattle.std.specs.Prelude.{◌≡◌, true, not, ◌&&◌, eqb};
ghost use Rattle.circuit.specs.Gate.{decode};
ghost use Rattle.circuit.specs.Kind.{Local, Owned, Opens, Output, Wire, mask_size, kind_shape, is_class, is_divisor, role};
ghost use Rattle.circuit.specs.Accept.{is_kind};
ghost use Rattle.circuit.specs.Code.{kind_of, class_of, role_of, shape_of};

use crate::{Class, Kind, Role, Shape};

// Numbers of a mask's record.
const MASK_SIZE: usize = 3;

// A number that is no kind counts as out. One match over all would be a table of jumps, with which the questions of a circuit take 1.2 to 4 times
// as long.
#[tactic(auto, unfolding(crate::specs::Gate::decode))]
pub fn decode(number: usize) -> Kind
    ensures { kind_of result ≡ decode number }
{
    if number <= Kind::Out as usize {
        match number {
            1 => Kind::In,
            2 => Kind::Add,
            3 => Kind::Sub,
            4 => Kind::Plus,
            5 => Kind::Times,
            6 => Kind::Mul,
            _ => Kind::Out,
        }
    } else {
        match number {
            8 => Kind::Sq,
            9 => Kind::Give,
            10 => Kind::Over,
            _ => Kind::Out,
        }
    }
}

// A kind that takes nothing and needs no round.
fn local(second: Role, constant: Role) -> Shape
    ensures { shape_of result ≡ record { class = Local; prep = 0; openings = 0; words = 0; first = Wire; second = role_of second; constant = role_of constant } }
{
    Shape {
        class: Class::Local,
        prep: 0,
        openings: 0,
        words: 0,
        first: Role::Wire,
        second,
        constant,
    }
}

pub fn shape_of(kind: Kind) -> Shape
    ensures { shape_of result ≡ kind_shape (kind_of kind) }
{
    match kind {
        Kind::In => Shape {
            class: Class::Owned,
            prep: MASK_SIZE,
            openings: 0,
            words: 1,
            first: Role::Party,
            second: Role::Unused,
            constant: Role::Unused,
        },
        Kind::Add => local(Role::Wire, Role::Unused),
        Kind::Sub => local(Role::Wire, Role::Unused),
        Kind::Plus => local(Role::Unused, Role::Constant),
        Kind::Times => local(Role::Unused, Role::Constant),
        Kind::Mul => Shape {
            class: Class::Opens,
            prep: 6,
            openings: 2,
            words: 2,
            first: Role::Wire,
            second: Role::Wire,
            constant: Role::Unused,
        },
        Kind::Out => Shape {
            class: Class::Output,
            prep: 0,
            openings: 0,
            words: 1,
            first: Role::Wire,
            second: Role::Unused,
            constant: Role::Unused,
        },
        Kind::Sq => Shape {
            class: Class::Opens,
            prep: 4,
            openings: 1,
            words: 1,
            first: Role::Wire,
            second: Role::Unused,
            constant: Role::Unused,
        },
        Kind::Give => Shape {
            class: Class::Output,
            prep: MASK_SIZE,
            openings: 0,
            words: 1,
            first: Role::Wire,
            second: Role::Party,
            constant: Role::Unused,
        },
        Kind::Over => local(Role::Unused, Role::Divisor),
    }
}

// Has a gate of this kind a value? The number is a kind. One test tells the kinds before out, which most gates are: every name in a circuit comes here.
pub fn has_value(number: usize) -> bool
    requires { is_kind number ≡ true }
    ensures { result ≡ not (is_class Output (kind_shape (decode number)).class) }
{
    number < Kind::Out as usize || number == Kind::Sq as usize || number == Kind::Over as usize
}

// Is a gate of this kind an input? One test, for whoever counts inputs along a circuit.
pub fn is_input(number: usize) -> bool
    ensures { result ≡ is_class Owned (kind_shape (decode number)).class }
{
    number == Kind::In as usize
}

#[tactic(auto, unfolding(crate::specs::Kind::is_class))]
pub fn is_linear(class: Class) -> bool
    ensures { result ≡ is_class Local (class_of class) }
{
    class == Class::Local
}

#[tactic(auto, unfolding(crate::specs::Kind::is_class))]
pub fn is_in(class: Class) -> bool
    ensures { result ≡ is_class Owned (class_of class) }
{
    class == Class::Owned
}

#[tactic(auto, unfolding(crate::specs::Kind::is_class))]
pub fn opens(class: Class) -> bool
    ensures { result ≡ is_class Opens (class_of class) }
{
    class == Class::Opens
}

#[tactic(auto, unfolding(crate::specs::Kind::is_class))]
pub fn is_out(class: Class) -> bool
    ensures { result ≡ is_class Output (class_of class) }
{
    class == Class::Output
}

// A give is an output with a mask.
pub fn is_give(s: Shape) -> bool
    ensures { result ≡ (is_class Output (class_of s.class) && eqb s.prep mask_size) }
{
    is_out(s.class) && s.prep == MASK_SIZE
}

// Is a number for dividing by?
pub fn is_divisor(role: Role) -> bool
    ensures { result ≡ is_divisor (role_of role) }
{
    role == Role::Divisor
}

// What number k of a gate is for: 1 its first, 2 its second, 3 its constant.
#[tactic(auto, unfolding(crate::specs::Kind::role, crate::specs::Code::shape_of))]
pub fn role_of(s: Shape, k: usize) -> Role
    ensures { role_of result ≡ role (shape_of s) k }
{
    match k {
        1 => s.first,
        2 => s.second,
        _ => s.constant,
    }
}
