// What all parties work out of the words of all, a function for each sort of round, in which each party is lent its own band of the scratch.
// What is common to the parties is found once. Nothing is asked here: what is needed is what the entry has asked.
ghost use Rattle.std.specs.Prelude.{◌≡◌, true, ◌+◌, ◌-◌, ◌*◌, ◌<◌, ◌≤◌, length};
ghost use Rattle.field.specs.Words.{size, ops};
ghost use Rattle.circuit.specs.Gate.{gate_size, gate, gate_of};
ghost use Rattle.circuit.specs.Kind.{Local, mask_size, kind_shape, is_class, receiver};
ghost use Rattle.circuit.specs.Round.{commit_words};
ghost use Rattle.circuit.specs.Code.{kind_of};
ghost use Rattle.protocol.specs.Position.{reach};
ghost use Rattle.protocol.specs.Send.{shown};
ghost use Rattle.protocol.specs.Receive.{after_input, after_opening, after_open_output, score, put_linear, settle};
ghost use Rattle.protocol.specs.Holding.{Held, Opened, Reads};
ghost use Rattle.protocol.specs.Code.{layout_of};
ghost use Rattle.protocol.specs.Ready.{Opening};
ghost use Rattle.protocol.specs.Scratch.{band, put_marks};
ghost use Rattle.joint.specs.Code.{prep_from, key_in, Prepared, Banded, EachBand, rebanded, SettlesAll, settled_all};

use crate::Frame;
use crate::parts::each_part;
use circuit::Kind;
use field::Word;

// In gate j, whose record stands at number at of each party's preprocessing; e is the owner's word.
pub fn receive_inputs(f: Frame, j: usize, at: usize, preps: &[Word], scratch: &mut [Word], e: Word)
    requires { Prepared f preps.now at 2 × Banded f scratch.old × (j < f.layout.gates) × (e < size) }
    ensures { scratch.new
        ≡ rebanded f (λ i. after_input ops i (key_in f preps.now i) (layout_of f.layout) (band f.scratch scratch.old i) j (prep_from f preps.now at i) e) scratch.old }
{
    each_part(f.parties, f.scratch, scratch, |i, band| {
        let key = f.key(preps, i);
        let record = f.prep_from(preps, at, i);
        steps::receiving::after_input(i, key, f.layout, band, j, record, e);
    });
}

// Gate j, which names x and z, opens k values, and whose record stands at number at; e and d are opened after u entries.
pub fn receive_openings(
    f: Frame,
    j: usize,
    x: usize,
    z: usize,
    at: usize,
    k: usize,
    u: usize,
    preps: &[Word],
    scratch: &mut [Word],
    e: Word,
    d: Word,
)
    requires { Prepared f preps.now at (2 * k + 2)
        × Banded f scratch.old
        × EachBand f scratch.old (λ i l. Opening size (key_in f preps.now i) (layout_of f.layout) l j x z (prep_from f preps.now at i) k u e d) }
    ensures { scratch.new
        ≡ rebanded f (λ i. after_opening ops i (key_in f preps.now i) (layout_of f.layout) (band f.scratch scratch.old i) j x z (prep_from f preps.now at i) k u e d) scratch.old }
{
    each_part(f.parties, f.scratch, scratch, |i, band| {
        let key = f.key(preps, i);
        let record = f.prep_from(preps, at, i);
        steps::receiving::after_opening(i, key, f.layout, band, j, x, z, record, k, u, e, d);
    });
}

// An output that names x; e is the sum of the shown shares, and the record of a give stands at number at.
pub fn receive_outputs(
    f: Frame,
    at: usize,
    x: usize,
    give: bool,
    preps: &[Word],
    scratch: &mut [Word],
    e: Word,
)
    requires { Banded f scratch.old
        × Prepared f preps.now at 0
        × (give ≡ true → at + mask_size ≤ f.prep)
        × (0 < f.layout.capacity)
        × EachBand f scratch.old (λ i l. Held size (layout_of f.layout) l x) }
    ensures { scratch.new
        ≡ rebanded f (λ i. after_open_output ops (layout_of f.layout) (band f.scratch scratch.old i) (shown ops (layout_of f.layout) (band f.scratch scratch.old i) give x (prep_from f preps.now at i)) e) scratch.old }
{
    each_part(f.parties, f.scratch, scratch, |i, band| {
        steps::receiving::after_open_output(f.layout, band, x, give, f.prep_from(preps, at, i), e);
    });
}

// The score of output j that is listed, from the receiver's band and record; the record of a give stands at number at.
pub fn listed_score(
    f: Frame,
    c: &[Word],
    j: usize,
    at: usize,
    give: bool,
    preps: &[Word],
    scratch: &[Word],
) -> Word
    requires { (gate_size * j + gate_size ≤ length c.now)
        × (receiver (gate c.now j) < f.parties)
        × Banded f scratch.now
        × Prepared f preps.now at 0
        × (give ≡ true → at + mask_size ≤ f.prep)
        × EachBand f scratch.now (λ i l. Opened size (layout_of f.layout) l 0) }
    ensures { result
        ≡ score ops (layout_of f.layout) (band f.scratch scratch.now (receiver (gate c.now j))) give (prep_from f preps.now at (receiver (gate c.now j))) }
{
    let i = gates::reading::receiver_at(c, j);
    steps::receiving::score_of(
        f.band(scratch, i),
        f.layout,
        give,
        f.prep_from(preps, at, i),
    )
}

// A commitment, whose words are the marks of all.
pub fn receive_marks(f: Frame, scratch: &mut [Word], marks: &[Word])
    requires { Banded f scratch.old × (length marks.now ≡ f.parties * commit_words) }
    ensures { scratch.new
        ≡ rebanded f (λ i. put_marks (layout_of f.layout) (band f.scratch scratch.old i) marks.now) scratch.old }
{
    each_part(f.parties, f.scratch, scratch, |_, band| {
        steps::scratch::put_marks(band, f.layout, marks);
    });
}

// Gate j, of a local kind, which names x and z and is worked out with k.
fn settle_gate(
    f: Frame,
    j: usize,
    kind: Kind,
    x: usize,
    z: usize,
    k: Word,
    preps: &[Word],
    scratch: &mut [Word],
)
    requires { Prepared f preps.now 0 1
        × Banded f scratch.old
        × (j < f.layout.gates)
        × (is_class Local (kind_shape (kind_of kind)).class ≡ true)
        × EachBand f scratch.old (λ i l. Reads size (layout_of f.layout) l (gate_of (kind_of kind) x z k)) }
    ensures { scratch.new
        ≡ rebanded f (λ i. put_linear ops i (key_in f preps.now i) (layout_of f.layout) (band f.scratch scratch.old i) j (kind_of kind) x z k) scratch.old }
{
    each_part(f.parties, f.scratch, scratch, |i, band| {
        let key = f.key(preps, i);
        steps::receiving::after_linear(i, key, f.layout, band, j, kind, x, z, k);
    });
}

// The linear gates from gate from on, up to the stop that they reach, which is returned: each gate is read and what it is
// worked out with is found once, and then it is done for each party.
pub fn settle(f: Frame, c: &[Word], from: usize, preps: &[Word], scratch: &mut [Word]) -> usize
    requires { SettlesAll f c.now preps.now scratch.old from }
    ensures { (result ≡ reach c.now (f.layout.gates - from) from)
        × (scratch.new ≡ settled_all f c.now preps.now scratch.old from) }
{
    for j in from..f.layout.gates {
        let kind = gates::reading::kind_at(c, j);
        let g = circuit::shapes::shape_of(kind);
        if !circuit::shapes::is_linear(g.class) {
            return j;
        }
        let x = gates::reading::first_at(c, j);
        let z = gates::reading::second_at(c, j);
        let k = steps::receiving::operand_at(c, j, g.constant);
        settle_gate(f, j, kind, x, z, k, preps, scratch);
    }
    f.layout.gates
}
