// What the four numbers of a gate say.
ghost use Rattle.std.specs.Prelude.{◌≡◌, true, ◌+◌, ◌*◌, ◌≤◌, length};
ghost use Rattle.circuit.specs.Gate.{gate_size, gate, entry};
ghost use Rattle.circuit.specs.Kind.{shape, is_give, seen_by, alone, receiver, factor, is_in, has_value};
ghost use Rattle.circuit.specs.Accept.{is_kind};
ghost use Rattle.circuit.specs.Code.{kind_of, class_of, shape_of};

use circuit::{Class, Kind, Shape, shapes};
use field::Word;

// Numbers a gate.
pub const GATE_SIZE: usize = 4;

const FIRST_KIND: usize = 1;

const LAST_KIND: usize = 10;

#[tactic(auto, unfolding(circuit::specs::Accept::is_kind))]
pub fn is_kind(number: usize) -> bool
    ensures { result ≡ is_kind number }
{
    FIRST_KIND <= number && number <= LAST_KIND
}

#[tactic(auto, unfolding(circuit::specs::Gate::gate, circuit::specs::Gate::entry))]
pub fn kind_at(c: &[Word], j: usize) -> Kind
    requires { gate_size * j + gate_size ≤ length c.now }
    ensures { kind_of result ≡ (gate c.now j).kind }
{
    shapes::decode(field::index(c[GATE_SIZE * j]))
}

pub fn shape_at(c: &[Word], j: usize) -> Shape
    requires { gate_size * j + gate_size ≤ length c.now }
    ensures { shape_of result ≡ shape (gate c.now j) }
{
    shapes::shape_of(kind_at(c, j))
}

#[tactic(auto, using(circuit::proofs::KindLaws::shape_class))]
pub fn class_at(c: &[Word], j: usize) -> Class
    requires { gate_size * j + gate_size ≤ length c.now }
    ensures { class_of result ≡ (shape (gate c.now j)).class }
{
    shape_at(c, j).class
}

// Is gate j an in gate? Its kind alone is looked at.
#[tactic(auto, unfolding(circuit::specs::Gate::gate, circuit::specs::Gate::entry))]
pub fn is_input_at(c: &[Word], j: usize) -> bool
    requires { gate_size * j + gate_size ≤ length c.now }
    ensures { result ≡ is_in (gate c.now j) }
{
    shapes::is_input(field::index(c[GATE_SIZE * j]))
}

// Has gate j a value? Its kind alone is looked at, which has passed question 4.
#[tactic(auto, unfolding(circuit::specs::Gate::gate, circuit::specs::Gate::entry))]
pub fn has_value_at(c: &[Word], j: usize) -> bool
    requires { (gate_size * j + gate_size ≤ length c.now) × (is_kind (entry c.now j 0) ≡ true) }
    ensures { result ≡ has_value (gate c.now j) }
{
    shapes::has_value(field::index(c[GATE_SIZE * j]))
}

// Is gate j a give?
#[tactic(auto, using(circuit::proofs::KindLaws::shape_gives))]
pub fn is_give_at(c: &[Word], j: usize) -> bool
    requires { gate_size * j + gate_size ≤ length c.now }
    ensures { result ≡ is_give (gate c.now j) }
{
    shapes::is_give(shape_at(c, j))
}

#[tactic(auto, unfolding(circuit::specs::Gate::gate, circuit::specs::Gate::entry))]
pub fn first_at(c: &[Word], j: usize) -> usize
    requires { gate_size * j + gate_size ≤ length c.now }
    ensures { result ≡ (gate c.now j).first }
{
    field::index(c[GATE_SIZE * j + 1])
}

#[tactic(auto, unfolding(circuit::specs::Gate::gate, circuit::specs::Gate::entry))]
pub fn second_at(c: &[Word], j: usize) -> usize
    requires { gate_size * j + gate_size ≤ length c.now }
    ensures { result ≡ (gate c.now j).second }
{
    field::index(c[GATE_SIZE * j + 2])
}

#[tactic(auto, unfolding(circuit::specs::Gate::gate, circuit::specs::Gate::entry))]
pub fn constant_at(c: &[Word], j: usize) -> Word
    requires { gate_size * j + gate_size ≤ length c.now }
    ensures { result ≡ (gate c.now j).constant }
{
    c[GATE_SIZE * j + 3]
}

// Is the score of gate j, an output, for party i?
#[tactic(auto, unfolding(circuit::specs::Kind::seen_by))]
pub fn is_seen_by(c: &[Word], j: usize, i: usize) -> bool
    requires { gate_size * j + gate_size ≤ length c.now }
    ensures { result ≡ seen_by (alone i) (gate c.now j) }
{
    !is_give_at(c, j) || second_at(c, j) == i
}

// The party whose score of gate j, an output, is listed.
#[tactic(auto, unfolding(circuit::specs::Kind::receiver))]
pub fn receiver_at(c: &[Word], j: usize) -> usize
    requires { gate_size * j + gate_size ≤ length c.now }
    ensures { result ≡ receiver (gate c.now j) }
{
    if is_give_at(c, j) { second_at(c, j) } else { 0 }
}

// The gate that gives the second factor of a product, where gate j opens that many values.
#[tactic(auto, unfolding(circuit::specs::Kind::factor))]
pub fn factor_at(c: &[Word], j: usize, openings: usize) -> usize
    requires { (gate_size * j + gate_size ≤ length c.now) × (openings ≡ (shape (gate c.now j)).openings) }
    ensures { result ≡ factor (gate c.now j) }
{
    if openings == 2 {
        second_at(c, j)
    } else {
        first_at(c, j)
    }
}
