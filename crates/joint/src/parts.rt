// Lists in which each party has its part, one after another.
ghost use Rattle.std.specs.Prelude.{◌≡◌, ℕ, ◌+◌, ◌*◌, ◌<◌, ◌≤◌, length, take, drop};
ghost use Rattle.std.specs.Fork.{AcceptsAt, ChangesAt};
ghost use Rattle.protocol.specs.Scratch.{band};
ghost use Rattle.joint.specs.Parts.{PartsLeft, WordsGiven};

use field::Word;

// Party i's part of k of the list xs.
pub fn part_of<T>(xs: &[T], k: usize, i: usize) -> &[T]
    requires { i * k + k ≤ length xs.now }
    ensures is { result.now ≡ take k (drop (i * k) xs.now) }
    ensures long { length result.now ≡ k }
{
    let start = i * k;
    &xs[start..start + k]
}

// Party i is lent its part.
fn lend<F: Fn(usize, &mut [Word])>(visit: &F, i: usize, part: &mut [Word])
    requires { AcceptsAt F.Fn visit.now i part.old }
    ensures { ChangesAt F.Fn visit.now i part.old part.new }
{
    visit(i, part);
}

// Each of n parties is lent its part of k words of the list xs.
pub fn each_part<F: Fn(usize, &mut [Word])>(n: usize, k: usize, xs: &mut [Word], visit: F)
    requires room { n * k ≤ length xs.old }
    requires each { (i : ℕ) → i < n → AcceptsAt F.Fn visit i (band k xs.old i) }
    ensures { PartsLeft F.Fn visit n k xs.old xs.new }
{
    for i in 0..n {
        let start = i * k;
        lend(&visit, i, &mut xs[start..start + k]);
    }
}

// Word i of out is what party i gives.
pub fn each_word<F: Fn(usize) -> Word>(out: &mut [Word], give: F)
    requires { (i : ℕ) → i < length out.old → F.pre give i }
    ensures { WordsGiven F.Fn give out.old out.new }
{
    for i in 0..out.len() {
        out[i] = give(i);
    }
}
