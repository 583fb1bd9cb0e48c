// The scratch behind its slots, with the nonce and the marks at its end.
ghost use Rattle.std.specs.Prelude.{◌≡◌, ◌+◌, ◌<◌, ◌≤◌, length};
ghost use Rattle.circuit.specs.Round.{nonce_size};
ghost use Rattle.sha256.specs.Sha256.{words_of};
ghost use Rattle.protocol.specs.Scratch.{slots_size, read, write, wire, put_wire, put_opened, marks_at, put_nonce, put_marks};
ghost use Rattle.field.specs.Words.{size};
ghost use Rattle.protocol.specs.Holding.{Within, Held};
ghost use Rattle.protocol.specs.Code.{layout_of, slot_of};
ghost use Rattle.steps.specs.Code.{part_of, IsPart};

use crate::Part;
use circuit::rounds::NONCE_WORDS;
use field::Word;
use protocol::{Layout, Slot};

#[tactic(auto, using(protocol::proofs::Slots::slot_fits), unfolding(protocol::specs::Scratch::read))]
pub fn read_slot(l: &[Word], y: Layout, s: Slot) -> Word
    requires { (slots_size (layout_of y) ≤ length l.now) × Within (layout_of y) (slot_of s) }
    ensures { result ≡ read (layout_of y) l.now (slot_of s) }
{
    let at = protocol::offset_of(y, s);
    l[at]
}

#[tactic(auto, using(protocol::proofs::Slots::slot_fits), unfolding(protocol::specs::Scratch::write))]
fn write_slot(l: &mut [Word], y: Layout, s: Slot, v: Word)
    requires { (slots_size (layout_of y) ≤ length l.old) × Within (layout_of y) (slot_of s) }
    ensures { l.new ≡ write (layout_of y) l.old (slot_of s) v }
{
    let at = protocol::offset_of(y, s);
    l[at] = v;
}

#[tactic(auto, unfolding(crate::specs::Code::part_of, protocol::specs::Scratch::wire))]
pub fn wire_at(l: &[Word], y: Layout, x: usize) -> Part
    requires { (slots_size (layout_of y) ≤ length l.now) × Held size (layout_of y) l.now x }
    ensures { IsPart (wire (layout_of y) l.now x) result }
{
    Part {
        share: read_slot(l, y, Slot::Share(x)),
        mac: read_slot(l, y, Slot::Mac(x)),
    }
}

#[tactic(auto, unfolding(protocol::specs::Scratch::put_wire, crate::specs::Code::part_of, protocol::specs::Code::layout_of))]
pub fn put_wire(l: &mut [Word], y: Layout, j: usize, x: Part)
    requires { (slots_size (layout_of y) ≤ length l.old) × (j < y.gates) }
    ensures { l.new ≡ put_wire (layout_of y) l.old j (part_of x) }
{
    write_slot(l, y, Slot::Share(j), x.share);
    write_slot(l, y, Slot::Mac(j), x.mac);
}

#[tactic(auto, unfolding(protocol::specs::Scratch::put_opened, protocol::specs::Code::layout_of))]
pub fn put_opened(l: &mut [Word], y: Layout, t: usize, v: Word, m: Word)
    requires { (slots_size (layout_of y) ≤ length l.old) × (t < y.capacity) }
    ensures { l.new ≡ put_opened (layout_of y) l.old t v m }
{
    write_slot(l, y, Slot::Value(t), v);
    write_slot(l, y, Slot::ValueMac(t), m);
}

// Notes the nonce that a commitment binds.
#[tactic(auto, using(crate::proofs::Marking::nonce_filled), unfolding(protocol::specs::Scratch::marks_at, protocol::specs::Scratch::nonce_at))]
pub fn put_nonce(l: &mut [Word], y: Layout, nonce: &[u8])
    requires { (marks_at (layout_of y) ≤ length l.old) × (length nonce.now ≡ nonce_size) }
    ensures { l.new ≡ put_nonce (layout_of y) l.old (words_of nonce.now) }
{
    let start = protocol::nonce_at(y);
    let end = start + NONCE_WORDS;
    sha256::words(nonce, &mut l[start..end]);
}

// Writes the marks of all, as they were heard.
#[tactic(auto, using(crate::proofs::Marking::marks_filled), unfolding(protocol::specs::Scratch::marks_at, protocol::specs::Scratch::nonce_at, protocol::specs::Send::overwrite))]
pub fn put_marks(l: &mut [Word], y: Layout, heard: &[Word])
    requires { marks_at (layout_of y) + length heard.now ≤ length l.old }
    ensures { l.new ≡ put_marks (layout_of y) l.old heard.now }
{
    let start = protocol::marks_at(y);
    let end = start + heard.len();
    sha256::copy(heard, &mut l[start..end]);
}
