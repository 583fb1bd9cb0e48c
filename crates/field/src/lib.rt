// The arithmetic of the field of the prime 2^31 - 1, on numbers below it.
#![tactic(auto)]

ghost use Rattle.std.specs.Prelude.{◌≡◌, ◌+◌, ◌*◌, ◌/◌, ◌%◌, ◌<◌};
ghost use Rattle.algebra.specs.Element.{Is};
ghost use Rattle.field.specs.Prime.{norm, add, sub, mul, inv};
ghost use Rattle.field.specs.Words.{size, sum_size, sum_room, term_size};

// A number that may be an element.
pub type Word = u32;

// A running sum of products.
pub type Sum = u64;

// The size of the field, 2^31 - 1.
pub const SIZE: Word = 2147483647;

// The largest number that a word can be.
pub const LARGEST: Word = Word::MAX;

// The sum. It is below 2 * SIZE, so that at most one SIZE is taken off.
#[tactic(auto, using(crate::specs::Prime::Laws::add_eq))]
pub fn add(x: Word, y: Word) -> Word
    requires { (x < size) × (y < size) }
    ensures { Is size (add x y) result }
{
    let s = x + y;
    if s < SIZE { s } else { s - SIZE }
}

// The difference. Where it would be negative, one SIZE is put on first.
#[tactic(auto, using(crate::specs::Prime::Laws::sub_eq))]
pub fn sub(x: Word, y: Word) -> Word
    requires { (x < size) × (y < size) }
    ensures { Is size (sub x y) result }
{
    if y <= x { x - y } else { x + (SIZE - y) }
}

// The bits below bit 31. As a number it is SIZE, so that 2^31 stands for 1.
const LOW: Sum = SIZE as u64;

// The bits of a word.
const WORD_BITS: Sum = LARGEST as u64;

// One fold: the bits from bit 31 on are added to the bits below it.
#[tactic(auto, using(crate::proofs::Folding::folds))]
pub fn fold(x: Sum) -> Sum
    ensures { (result < sum_size) × (norm result ≡ norm x) × (x < sum_size → result < term_size) }
{
    (x & LOW) + (x >> 31)
}

// The element that a number below SIZE * SIZE stands for: one fold comes below 2 * SIZE, so that at most one SIZE is taken off,
// and without a branch.
#[tactic(auto, using(crate::proofs::Folding::elements))]
pub fn element(x: Sum) -> Word
    requires { x < sum_size }
    ensures { Is size (norm x) result }
{
    let s = ((x & LOW) as u32) + ((x >> 31) as u32);
    s - if s < SIZE { 0 } else { SIZE }
}

// The product. It is below SIZE * SIZE, which fits 64 bits.
#[tactic(auto, using(crate::proofs::Bounds::fits, crate::proofs::Products::sums))]
pub fn mul(x: Word, y: Word) -> Word
    requires { (x < size) × (y < size) }
    ensures { Is size (mul x y) result }
{
    element((x as u64) * (y as u64))
}

// The same product, of a factor that is given twice. Its bits from bit 31 on are then the upper half of what is multiplied, so that one
// factor for many numbers is doubled once and each product has less to split.
pub fn mul_twice(x: Word, twice: Word) -> Word
    requires { (x < size) × (twice % 2 ≡ 0) × (twice / 2 < size) }
    ensures { Is size (mul x (twice / 2)) result }
{
    let wide = (x as u64) * (twice as u64);
    let s = ((wide >> 32) as u32) + (((wide & WORD_BITS) as u32) >> 1);
    (s + ((s + 1) >> 31)) & SIZE
}

// The element that a number stands for. One fold comes below SIZE * SIZE, whatever the number is.
pub fn reduce(x: Sum) -> Word
    ensures { Is size (norm x) result }
{
    element(fold(x))
}

// The inverse, by Euclid's rule: s * k stands for x and t * k for y throughout. Each turn halves x * y, so that there are at most 62.
#[tactic(auto, using(crate::proofs::Turns::turning))]
pub fn inverse(k: Word) -> Word
    requires { k < size }
    ensures { Is size (inv k) result }
{
    let mut x = SIZE;
    let mut y = k;
    let mut s: Word = 0;
    let mut t: Word = 1;
    while y != 0 {
        let quotient = x / y;
        let rest = x % y;
        let u = sub(s, reduce((quotient as u64) * (t as u64)));
        x = y;
        y = rest;
        s = t;
        t = u;
    }
    s
}

// A running sum with an element added.
#[tactic(auto, using(crate::proofs::Bounds::fits, crate::proofs::Products::sums))]
pub fn add_element(sum: Sum, x: Word) -> Sum
    requires { (sum < sum_room) × (x < size) }
    ensures { (result < sum + term_size) × (norm result ≡ add (norm sum) x) }
{
    sum + (x as u64)
}

// A running sum of products with x * y added. The product is folded first, and the sum is not, so that nothing of one product waits for
// another: several are made at a time.
#[tactic(auto, using(crate::proofs::Bounds::fits, crate::proofs::Products::sums))]
pub fn add_product(sum: Sum, x: Word, y: Word) -> Sum
    requires { (sum < sum_room) × (x < size) × (y < size) }
    ensures { (result < sum + term_size) × (norm result ≡ add (norm sum) (mul x y)) }
{
    sum + fold((x as u64) * (y as u64))
}

// c + e * b + d * a + k * m, reduced once: an element and three products fit 64 bits.
#[tactic(auto, using(crate::proofs::Bounds::fits, crate::proofs::Products::sums))]
pub fn add_products(c: Word, e: Word, b: Word, d: Word, a: Word, k: Word, m: Word) -> Word
    requires { (c < size) × (e < size) × (b < size) × (d < size) × (a < size) × (k < size) × (m < size) }
    ensures { Is size (add (add (add c (mul e b)) (mul d a)) (mul k m)) result }
{
    reduce((c as u64) + (e as u64) * (b as u64) + (d as u64) * (a as u64) + (k as u64) * (m as u64))
}

// A word as a count or a place.
pub fn index(x: Word) -> usize
    ensures { result ≡ x }
{
    x as usize
}
