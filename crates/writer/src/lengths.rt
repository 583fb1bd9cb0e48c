// How many digits numbers have.
ghost use Rattle.forms.specs.Form.{decimal};
ghost use Rattle.writer.specs.Code.{Counts};

pub const TEN: usize = 10;

// How many digits a number has.
pub fn places(n: usize) -> usize
    ensures { Counts (decimal n) 20 result }
{
    let mut k = 1;
    let mut rest = n;
    while TEN <= rest {
        rest /= TEN;
        k += 1;
    }
    k
}
