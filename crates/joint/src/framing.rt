// What stays the same from round to round.
ghost use Rattle.std.specs.Prelude.{◌≡◌, ◌<◌, ◌≤◌};
ghost use Rattle.field.specs.Words.{size};
ghost use Rattle.circuit.specs.Gate.{gates};
ghost use Rattle.circuit.specs.Valid.{Valid};
ghost use Rattle.circuit.specs.Code.{Totalled};
ghost use Rattle.protocol.specs.Ask.{most_parties};
ghost use Rattle.protocol.specs.Scratch.{band};
ghost use Rattle.joint.specs.Code.{Small, Counted, CountedOn, Placed, Framed, prep_from, key_in, Prepared, Banded};

use crate::Frame;
use crate::parts::part_of;
use circuit::Totals;
use field::Word;
use protocol::Layout;

impl Frame {
    // Party i's key share, which is the first number of its preprocessing.
    #[tactic(auto, unfolding(protocol::specs::Scratch::band))]
    pub fn key(self, preps: &[Word], i: usize) -> Word
        requires { (i < self.parties) × Prepared self preps.now 0 1 }
        ensures { result ≡ key_in self preps.now i }
    {
        part_of(preps, self.prep, i)[0]
    }

    // Party i's preprocessing from number at on.
    #[tactic(auto, unfolding(protocol::specs::Scratch::band))]
    pub fn prep_from(self, preps: &[Word], at: usize, i: usize) -> &[Word]
        requires { (i < self.parties) × Prepared self preps.now at 0 }
        ensures { result.now ≡ prep_from self preps.now at i }
    {
        &part_of(preps, self.prep, i)[at..]
    }

    // Party i's band of the scratch of all.
    #[tactic(auto, unfolding(protocol::specs::Scratch::band))]
    pub fn band(self, scratch: &[Word], i: usize) -> &[Word]
        requires { (i < self.parties) × Banded self scratch.now }
        ensures { result.now ≡ band self.scratch scratch.now i }
    {
        part_of(scratch, self.scratch, i)
    }
}

// Where gate j is an in gate, the number of its owner goes on.
fn count_input(parties: usize, c: &[Word], j: usize, counts: &mut [usize])
    requires { Valid parties size c.now × (parties ≤ most_parties) × (j < gates c.now) × Small parties counts.old }
    ensures { CountedOn parties c.now j counts.old counts.new }
{
    if circuit::shapes::is_in(gates::reading::class_at(c, j)) {
        let owner = gates::reading::first_at(c, j);
        counts[owner] += 1;
    }
}

// The number of inputs of each party in a circuit of count gates.
fn count_inputs(parties: usize, c: &[Word], count: usize) -> [usize; 8]
    requires { Valid parties size c.now × (count ≡ gates c.now) × (parties ≤ most_parties) }
    ensures { Counted parties c.now count result }
{
    let mut counts = [0usize; 8];
    for j in 0..count {
        count_input(parties, c, j, &mut counts);
    }
    counts
}

// Where each party's inputs start in the joined inputs; the circuit has count gates.
pub fn starts_of(parties: usize, c: &[Word], count: usize) -> [usize; 8]
    requires { Valid parties size c.now × (count ≡ gates c.now) × (parties ≤ most_parties) }
    ensures { Placed parties c.now 0 result }
{
    let counts = count_inputs(parties, c, count);
    let mut starts = [0usize; 8];
    let mut at = 0;
    for i in 0..parties {
        starts[i] = at;
        at += counts[i];
    }
    starts
}

// The frame of a circuit of count gates, all of whose runs take those totals.
pub fn frame_of(parties: usize, c: &[Word], count: usize, totals: Totals) -> Frame
    requires { Valid parties size c.now × (parties ≤ most_parties) × (count ≡ gates c.now) × Totalled c.now count totals }
    ensures { Framed parties c.now result }
{
    let layout = Layout {
        gates: count,
        capacity: totals.openings + 1,
    };
    Frame {
        parties,
        layout,
        scratch: protocol::size_of(parties, layout),
        prep: totals.prep,
    }
}
