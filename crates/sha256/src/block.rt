// One block of a message: FIPS 180-4, section 6.2.2. The schedule is worked out eight words ahead of the rounds and the rounds go eight a turn, after which
// each working variable is back in its place, so that none is moved.
ghost use Rattle.std.specs.Prelude.{◌≡◌, ◌+◌, ◌≤◌, ◌++◌, length, take, drop};
ghost use Rattle.sha256.specs.Sha256 as spec;

use crate::functions;

// The constants of the rounds.
const K: [u32; 64] = [
    0x428a_2f98,
    0x7137_4491,
    0xb5c0_fbcf,
    0xe9b5_dba5,
    0x3956_c25b,
    0x59f1_11f1,
    0x923f_82a4,
    0xab1c_5ed5,
    0xd807_aa98,
    0x1283_5b01,
    0x2431_85be,
    0x550c_7dc3,
    0x72be_5d74,
    0x80de_b1fe,
    0x9bdc_06a7,
    0xc19b_f174,
    0xe49b_69c1,
    0xefbe_4786,
    0x0fc1_9dc6,
    0x240c_a1cc,
    0x2de9_2c6f,
    0x4a74_84aa,
    0x5cb0_a9dc,
    0x76f9_88da,
    0x983e_5152,
    0xa831_c66d,
    0xb003_27c8,
    0xbf59_7fc7,
    0xc6e0_0bf3,
    0xd5a7_9147,
    0x06ca_6351,
    0x1429_2967,
    0x27b7_0a85,
    0x2e1b_2138,
    0x4d2c_6dfc,
    0x5338_0d13,
    0x650a_7354,
    0x766a_0abb,
    0x81c2_c92e,
    0x9272_2c85,
    0xa2bf_e8a1,
    0xa81a_664b,
    0xc24b_8b70,
    0xc76c_51a3,
    0xd192_e819,
    0xd699_0624,
    0xf40e_3585,
    0x106a_a070,
    0x19a4_c116,
    0x1e37_6c08,
    0x2748_774c,
    0x34b0_bcb5,
    0x391c_0cb3,
    0x4ed8_aa4a,
    0x5b9c_ca4f,
    0x682e_6ff3,
    0x748f_82ee,
    0x78a5_636f,
    0x84c8_7814,
    0x8cc7_0208,
    0x90be_fffa,
    0xa450_6ceb,
    0xbef9_a3f7,
    0xc671_78f2,
];

// The rounds of a block, and the words of its schedule.
const ROUNDS: usize = 64;

// The words of a block, with which its schedule begins.
const BLOCK: usize = 16;

// The rounds of a turn.
const TURN: usize = 8;

// Writes the next eight words of a schedule whose first t + 16 words are there. Each is made of the words 2, 7, 15 and 16 before it.
fn extend(w: &mut [u32; 64], t: usize)
    requires { t + 24 ≤ 64 }
    ensures { w.new ≡ spec.extend 8 (take (t + 16) w.old) ++ drop (t + 24) w.old }
{
    for i in 0..TURN {
        let at = t + i;
        w[at + BLOCK] = functions::next(w[at + 14], w[at + 9], w[at + 1], w[at]);
    }
}

// Eight rounds, with their constants and their words of the schedule.
fn turn(hash: [u32; 8], k: &[u32], w: &[u32]) -> [u32; 8]
    requires { (length k.now ≡ 8) × (length w.now ≡ 8) }
    ensures { result ≡ spec.rounds k.now w.now hash }
{
    let mut v = hash;
    for i in 0..TURN {
        let next = functions::round(v, k[i], w[i]);
        v = next;
    }
    v
}

// All rounds of the block that is the first sixteen words of w, whose other words become its schedule. The constants are copied once: `K[t..]` in the
// loop would make all of them at every turn.
fn rounds(hash: [u32; 8], w: &mut [u32; 64]) -> [u32; 8]
    ensures value { result ≡ spec.rounds spec.K (spec.schedule (take 16 w.old)) hash }
    ensures w_after { w.new ≡ spec.schedule (take 16 w.old) }
{
    let k = K;
    let mut v = hash;
    for i in 0..ROUNDS / TURN {
        let t = TURN * i;
        if t < ROUNDS - BLOCK {
            extend(w, t);
        }
        let next = turn(v, &k[t..t + TURN], &w[t..t + TURN]);
        v = next;
    }
    v
}

// The hash after the block that is the first sixteen words of w.
pub fn compress(hash: [u32; 8], w: &mut [u32; 64]) -> [u32; 8]
    ensures value { result ≡ spec.compress hash (take 16 w.old) }
    ensures w_after { w.new ≡ spec.schedule (take 16 w.old) }
{
    functions::sums(rounds(hash, w), hash)
}
