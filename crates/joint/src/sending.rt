// What all parties send, a function for each sort of word, in which each party gets its own part of the joined lists. Nothing is
// asked here: what is needed is what the entry has asked.
ghost use Rattle.std.specs.Prelude.{◌≡◌, true, [], ◌∷◌, ℕ, ◌+◌, ◌-◌, ◌*◌, ◌<◌, ◌≤◌, length, get_or};
ghost use Rattle.algebra.specs.Element.{Is};
ghost use Rattle.field.specs.Words.{ops, size};
ghost use Rattle.circuit.specs.Kind.{mask_size};
ghost use Rattle.circuit.specs.Round.{commit_words, nonce_size, reveal_words};
ghost use Rattle.sha256.specs.Sha256.{words_of};
ghost use Rattle.protocol.specs.Scratch.{band, put_nonce};
ghost use Rattle.protocol.specs.Send.{mark, input_word, words_of_opening, shown};
ghost use Rattle.protocol.specs.Receive.{heard_sum};
ghost use Rattle.protocol.specs.Holding.{Below, Held, Opened};
ghost use Rattle.protocol.specs.Code.{layout_of};
ghost use Rattle.protocol.specs.Ask.{most_parties};
ghost use Rattle.protocol.specs.Joint.{joined};
ghost use Rattle.joint.specs.Code.{prep_from, Prepared, Banded, EachBand, rebanded, Common, share_in, revealed_by};

use crate::Frame;
use crate::parts::{each_part, each_word, part_of};
use circuit::rounds::{COMMIT_WORDS, NONCE_SIZE, REVEAL_WORDS};
use field::Word;
use steps::Ends;

// Each party's word of an in gate into out. Its record stands at number at of each party's preprocessing, and each party's next input at its
// place.
pub fn input_words(
    f: Frame,
    at: usize,
    owner: usize,
    places: &[usize],
    preps: &[Word],
    inputs: &[Word],
    out: &mut [Word],
)
    requires { (f.parties ≤ most_parties)
        × Prepared f preps.now at 3
        × Below size inputs.now
        × (f.parties ≤ length places.now)
        × (length out.old ≡ f.parties) }
    ensures { out.new
        ≡ joined f.parties (λ i. input_word ops i owner (prep_from f preps.now at i) (get_or inputs.now (get_or places.now i 0) 0) ∷ []) }
{
    each_word(out, |i| {
        steps::sending::input_word(i, owner, f.prep_from(preps, at, i), inputs, places[i])
    });
}

// Each party's k words of a gate that opens k values into out, and what the first and the last words of all come to. The gate names x and z,
// and its record stands at number at.
pub fn opening_words(
    f: Frame,
    at: usize,
    x: usize,
    z: usize,
    k: usize,
    preps: &[Word],
    scratch: &[Word],
    out: &mut [Word],
) -> Ends<Word>
    requires { (1 ≤ k)
        × (k ≤ 2)
        × Prepared f preps.now at (2 * k + 2)
        × Banded f scratch.now
        × EachBand f scratch.now (λ i l. Held size (layout_of f.layout) l x × Held size (layout_of f.layout) l z)
        × (length out.old ≡ f.parties * k)
        × (f.parties ≤ most_parties) }
    ensures out { out.new
        ≡ joined f.parties (λ i. words_of_opening ops (layout_of f.layout) (band f.scratch scratch.now i) x z (prep_from f preps.now at i) k) }
    ensures sums { Is size (heard_sum ops f.parties k 0 out.new) result.first
        × Is size (heard_sum ops f.parties k (k - 1) out.new) result.last }
{
    let mut sums = Ends { first: 0, last: 0 };
    // No each_part: the clauses of a function that takes a closure tell nothing of sums that the closure adds to.
    for i in 0..f.parties {
        let start = i * k;
        let ends = steps::sending::opening_words(
            f.band(scratch, i),
            f.layout,
            x,
            z,
            f.prep_from(preps, at, i),
            k,
            &mut out[start..start + k],
        );
        sums = steps::receiving::hear(sums, ends);
    }
    steps::receiving::heard_ends(sums)
}

// The share that each party shows at an output into out, of the gate x that it names; the record of a give stands at number at.
pub fn output_words(
    f: Frame,
    at: usize,
    x: usize,
    give: bool,
    preps: &[Word],
    scratch: &[Word],
    out: &mut [Word],
)
    requires { (f.parties ≤ most_parties)
        × Prepared f preps.now at 0
        × (give ≡ true → at + mask_size ≤ f.prep)
        × Banded f scratch.now
        × EachBand f scratch.now (λ i l. Held size (layout_of f.layout) l x)
        × (length out.old ≡ f.parties) }
    ensures { out.new
        ≡ joined f.parties (λ i. (shown ops (layout_of f.layout) (band f.scratch scratch.now i) give x (prep_from f preps.now at i)).share ∷ []) }
{
    each_word(out, |i| {
        let band = f.band(scratch, i);
        steps::sending::shown_part(band, f.layout, x, give, f.prep_from(preps, at, i)).share
    });
}

// Each party's check share over the first k opened entries, whose coefficients start at u, into out. The opened values are the same to all, so
// that their sum is made once.
pub fn check_shares(
    f: Frame,
    k: usize,
    u: usize,
    preps: &[Word],
    scratch: &[Word],
    coefficients: &[Word],
    out: &mut [Word],
)
    requires { (f.parties ≤ most_parties)
        × Prepared f preps.now 0 1
        × Banded f scratch.now
        × (u + k ≤ length coefficients.now)
        × Below size coefficients.now
        × EachBand f scratch.now (λ i l. (t : ℕ) → t < k → Opened size (layout_of f.layout) l t)
        × (0 < f.parties)
        × (0 < (layout_of f.layout).capacity)
        × Common f scratch.now k
        × (length out.old ≡ f.parties) }
    ensures { out.new ≡ joined f.parties (λ i. share_in f preps.now scratch.now k u coefficients.now i ∷ []) }
{
    let drawn = &coefficients[u..u + k];
    let sum = steps::sending::weigh_values(f.band(scratch, 0), f.layout, k, drawn);
    each_word(out, |i| {
        let key = f.key(preps, i);
        let band = f.band(scratch, i);
        steps::sending::check_share_of(sum, band, f.layout, k, key, drawn)
    });
}

// Each party's nonce into its scratch; nonces has those of all.
pub fn put_nonces(f: Frame, nonces: &[u8], scratch: &mut [Word])
    requires { Banded f scratch.old × (f.parties * nonce_size ≤ length nonces.now) }
    ensures { scratch.new
        ≡ rebanded f (λ i. put_nonce (layout_of f.layout) (band f.scratch scratch.old i) (words_of (band nonce_size nonces.now i))) scratch.old }
{
    each_part(f.parties, f.scratch, scratch, |i, band| {
        steps::scratch::put_nonce(band, f.layout, part_of(nonces, NONCE_SIZE, i));
    });
}

// Each party's mark into out; held has the check shares.
pub fn commit_words(f: Frame, held: &[Word], scratch: &[Word], out: &mut [Word])
    requires { (f.parties ≤ most_parties)
        × (f.parties ≤ length held.now)
        × Banded f scratch.now
        × (length out.old ≡ f.parties * commit_words) }
    ensures { out.new ≡ joined f.parties (λ i. mark (revealed_by f held.now scratch.now i)) }
{
    each_part(f.parties, COMMIT_WORDS, out, |i, part| {
        steps::sending::commit_words(held[i], f.band(scratch, i), f.layout, part);
    });
}

// And what each party reveals.
pub fn reveal_words(f: Frame, held: &[Word], scratch: &[Word], out: &mut [Word])
    requires { (f.parties ≤ most_parties)
        × (f.parties ≤ length held.now)
        × Banded f scratch.now
        × (length out.old ≡ f.parties * reveal_words) }
    ensures { out.new ≡ joined f.parties (revealed_by f held.now scratch.now) }
{
    each_part(f.parties, REVEAL_WORDS, out, |i, part| {
        steps::sending::reveal_words(held[i], f.band(scratch, i), f.layout, part);
    });
}
