// Shares with their MAC shares, and what is done to both alike.
ghost use Rattle.std.specs.Prelude.{cond, ◌+◌, ◌<◌, length, eqb};
ghost use Rattle.algebra.specs.Element.{Is};
ghost use Rattle.field.specs.Words.{size, ops};
ghost use Rattle.protocol.specs.Part.{part_at, plus, minus, scale, known, shift, product};
ghost use Rattle.protocol.specs.Holding.{Below};
ghost use Rattle.steps.specs.Code.{part_of, Low, IsPart};

use field::Word;
use std::ops::{Add, Sub};

// A party's share of a value, and its MAC share.
#[derive(Clone, Copy)]
pub struct Part {
    pub share: Word,
    pub mac: Word,
}

// Shares and MAC shares are added alike.
impl Add for Part {
    type Output = Part;

    ghost can_add = { λ x y. Low x × Low y };

    ghost add_gives = { λ x y r. IsPart (plus ops (part_of x) (part_of y)) r };

    #[tactic(auto, unfolding(crate::specs::Code::part_of, protocol::specs::Part::plus))]
    fn add(self, y: Part) -> Part {
        Part {
            share: field::add(self.share, y.share),
            mac: field::add(self.mac, y.mac),
        }
    }
}

// And subtracted alike.
impl Sub for Part {
    type Output = Part;

    ghost can_sub = { λ x y. Low x × Low y };

    ghost sub_gives = { λ x y r. IsPart (minus ops (part_of x) (part_of y)) r };

    #[tactic(auto, unfolding(crate::specs::Code::part_of, protocol::specs::Part::minus))]
    fn sub(self, y: Part) -> Part {
        Part {
            share: field::sub(self.share, y.share),
            mac: field::sub(self.mac, y.mac),
        }
    }
}

impl Part {
    // The two numbers that stand at k in a record.
    #[tactic(auto, unfolding(crate::specs::Code::part_of, protocol::specs::Part::part_at))]
    pub fn at(m: &[Word], k: usize) -> Part
        requires { (k + 1 < length m.now) × Below size m.now }
        ensures { IsPart (part_at m.now k) result }
    {
        Part {
            share: m[k],
            mac: m[k + 1],
        }
    }

    #[tactic(auto, unfolding(crate::specs::Code::part_of, protocol::specs::Part::scale))]
    pub fn times(self, k: Word) -> Part
        requires { (k < size) × Low self }
        ensures { IsPart (scale ops k (part_of self)) result }
    {
        Part {
            share: field::mul(k, self.share),
            mac: field::mul(k, self.mac),
        }
    }

    // Plus a number that all know.
    #[tactic(auto, unfolding(protocol::specs::Part::shift))]
    pub fn shifted(self, me: usize, key: Word, k: Word) -> Part
        requires { (key < size) × Low self × (k < size) }
        ensures { IsPart (shift ops me key (part_of self) k) result }
    {
        self + of_known(me, key, k)
    }
}

// The party's share of a number that all know: it stands at party 0 only.
fn known_share(me: usize, k: Word) -> Word
    requires { k < size }
    ensures { Is size (cond (eqb me 0) k 0) result }
{
    if me == 0 { k } else { 0 }
}

// The party's part of a number that all know.
#[tactic(auto, unfolding(crate::specs::Code::part_of, protocol::specs::Part::known))]
fn of_known(me: usize, key: Word, k: Word) -> Part
    requires { (key < size) × (k < size) }
    ensures { IsPart (known ops me key k) result }
{
    Part {
        share: known_share(me, k),
        mac: field::mul(key, k),
    }
}

// The product from a triple and the two opened differences; of a square b is a, and both differences are one.
pub fn multiplied(me: usize, key: Word, a: Part, b: Part, c: Part, e: Word, d: Word) -> Part
    requires { (key < size) × Low a × Low b × Low c × (e < size) × (d < size) }
    ensures { IsPart (product ops me key (part_of a) (part_of b) (part_of c) e d) result }
{
    let ed = field::mul(e, d);
    Part {
        share: field::add_products(c.share, e, b.share, d, a.share, 1, known_share(me, ed)),
        mac: field::add_products(c.mac, e, b.mac, d, a.mac, key, ed),
    }
}
