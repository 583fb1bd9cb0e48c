// A list of elements times a factor, for the benchmark: what one proved product costs without the protocol.
#![tactic(auto)]

ghost use Rattle.std.specs.Prelude.{◌≡◌, ◌<◌};
ghost use Rattle.field.specs.Words.{size};
ghost use Rattle.circuit.specs.Question.{verdict_of};
ghost use Rattle.protocol.specs.Holding.{Below};
ghost use Rattle.protocol.specs.Entry.{leave};
ghost use Rattle.scaling.specs.Scale.{scaled, ask_scale, refusal_number};

use circuit::questions::{Question, Refusal, ask};
use field::Word;

// What scaling returns where nothing refuses; else the number of the question that does.
const SCALED: u32 = 0;

// The questions of scaling are its own.
const FACTOR: Question = Question::Own(1);

const VALUES: Question = Question::Own(2);

// Each number of a list times a factor, in place; nothing is written where one of them is no element.
#[tactic(auto, unfolding(crate::specs::Scale::refusal_number, protocol::specs::Entry::leave))]
pub fn spdz_scale(values: &mut [Word], by: Word) -> u32
    ensures returned { result ≡ refusal_number (ask_scale by values.old) }
    ensures values { values.new ≡ leave (ask_scale by values.old) (scaled by values.old) values.old }
{
    match ask_all(values, by) {
        Ok(()) => {
            scale(values, by);
            SCALED
        }
        Err(refusal) => refusal.question.number(),
    }
}

// Both questions.
#[tactic(auto, using(circuit::proofs::Verdicts::asked), unfolding(crate::specs::Scale::ask_scale))]
fn ask_all(values: &[Word], by: Word) -> Result<(), Refusal>
    ensures { verdict_of result ≡ ask_scale by values.now }
{
    ask(FACTOR, 0, by < field::SIZE)?;
    party::asking::ask_elements(VALUES, values)
}

fn scale(values: &mut [Word], by: Word)
    requires { (by < size) × Below size values.old }
    ensures { values.new ≡ scaled by values.old }
{
    let twice = by + by;
    for x in values.iter_mut() {
        *x = field::mul_twice(*x, twice);
    }
}
