// The hash function SHA-256 of FIPS 180-4, for messages that are one block: at most 13 words, each four bytes with the high byte first.
#![tactic(auto)]

ghost use Rattle.std.specs.Prelude.{◌≡◌, ◌≤◌, ◌++◌, length, drop};
ghost use Rattle.sha256.specs.Sha256.{words_of};
ghost use Rattle.sha256.specs.Digest.{digest, same};

mod block;
mod functions;

// The initial hash value.
const H0: [u32; 8] = [
    0x6a09_e667,
    0xbb67_ae85,
    0x3c6e_f372,
    0xa54f_f53a,
    0x510e_527f,
    0x9b05_688c,
    0x1f83_d9ab,
    0x5be0_cd19,
];

// The last word of a block, which holds the message's length in bits.
const LAST: usize = 15;

const WORD_BITS: usize = 32;

// The bit 1 that ends a message.
const END: u32 = 0x8000_0000;

// Writes words over the front of a list. One by one: where the compiler cannot tell that the lists lie apart, `copy_from_slice` is a call of `memmove`,
// which whoever links the archive would have to bring.
pub fn copy(from: &[u32], to: &mut [u32])
    requires { length from.now ≤ length to.old }
    ensures { to.new ≡ from.now ++ drop (length from.now) to.old }
{
    for i in 0..from.len() {
        to[i] = from[i];
    }
}

// The hash of a message. The message is padded where its schedule is worked out, so that nothing is copied twice.
pub fn hash(message: &[u32]) -> [u32; 8]
    requires { length message.now ≤ 13 }
    ensures { result ≡ digest message.now }
{
    let n = message.len();
    let mut w = [0; 64];
    w[..n].copy_from_slice(message);
    w[n] = END;
    w[LAST] = (WORD_BITS * n) as u32;
    block::compress(H0, &mut w)
}

// Writes the hash of a message over the front of a list.
pub fn hash_into(message: &[u32], out: &mut [u32])
    requires { (length message.now ≤ 13) × (8 ≤ length out.old) }
    ensures { out.new ≡ digest message.now ++ drop 8 out.old }
{
    out[..8].copy_from_slice(&hash(message));
}

// Whether a list is the hash of a message.
#[tactic(auto, unfolding(crate::specs::Digest::same))]
pub fn matches(message: &[u32], mark: &[u32]) -> bool
    requires { length message.now ≤ 13 }
    ensures { result ≡ same (digest message.now) mark.now }
{
    hash(message).as_slice() == mark
}

// Writes the eight words of 32 bytes over the front of a list. A loop over the words themselves is a sixth slower.
pub fn words(bytes: &[u8], out: &mut [u32])
    requires { (length bytes.now ≡ 32) × (8 ≤ length out.old) }
    ensures { out.new ≡ words_of bytes.now ++ drop 8 out.old }
{
    let (words, _) = bytes.as_chunks::<4>();
    for i in 0..8 {
        out[i] = u32::from_be_bytes(words[i]);
    }
}
