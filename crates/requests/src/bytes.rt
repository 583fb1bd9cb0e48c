// A text's bytes as the numbers of a list.
ghost use Rattle.std.specs.Prelude.{◌≡◌, length};
ghost use Rattle.requests.specs.Texts.{bytes_in, lows};

use field::Word;

// The largest byte, and how many there are.
const LARGEST_BYTE: Word = 255;

const BYTES: Word = 256;

// Are the numbers of a list bytes?
pub fn all_bytes(list: &[Word]) -> bool
    ensures { result ≡ bytes_in list.now }
{
    list.iter().all(|n| *n <= LARGEST_BYTE)
}

// The low byte of each number.
pub fn to_bytes(list: &[Word], bytes: &mut [u8])
    requires { length list.now ≡ length bytes.old }
    ensures { bytes.new ≡ lows list.now }
{
    for i in 0..list.len() {
        bytes[i] = (list[i] % BYTES) as u8;
    }
}

// Each byte as a number.
pub fn to_numbers(bytes: &[u8], list: &mut [Word])
    requires { length bytes.now ≡ length list.old }
    ensures { list.new ≡ bytes.now }
{
    for i in 0..bytes.len() {
        list[i] = bytes[i] as u32;
    }
}
