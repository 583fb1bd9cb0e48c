// The scaling of a list, as the benchmark links it: the call and the contract of `scaling`, under its C name.
#![tactic(auto)]

ghost use Rattle.std.specs.Prelude.{◌≡◌};
ghost use Rattle.protocol.specs.Entry.{leave};
ghost use Rattle.scaling.specs.Scale.{scaled, ask_scale, refusal_number};

use field::Word;

// Each number of a list times a factor, in place; nothing is written where one of them is no element.
#[unsafe(no_mangle)]
pub extern "C" fn spdz_scale(values: &mut [Word], by: Word) -> u32
    ensures returned { result ≡ refusal_number (ask_scale by values.old) }
    ensures values { values.new ≡ leave (ask_scale by values.old) (scaled by values.old) values.old }
{
    scaling::spdz_scale(values, by)
}
