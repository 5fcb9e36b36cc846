// The convolutional code (000, 3.1.2.2): the two formulas, by which blocks are coded, and the printed table of pairs.
#![tactic(auto)]

ghost use Rattle.std.specs.Prelude.{◌≡◌, ◌*◌, ◌≤◌, ◌<◌, length};
ghost use Rattle.bits.specs.Bits.{Bits};
ghost use Rattle.convolution.specs.Pairs.{back, coded, first, pair_of, second};

// The handbook's table: for each state of the register, 0 to 15, the pair c(2k) c(2k+1) for next bit 0 and for next bit 1.
const PAIRS: [[u8; 2]; 16] = [
    [0b00, 0b11],
    [0b11, 0b00],
    [0b11, 0b00],
    [0b00, 0b11],
    [0b00, 0b11],
    [0b11, 0b00],
    [0b11, 0b00],
    [0b00, 0b11],
    [0b01, 0b10],
    [0b10, 0b01],
    [0b10, 0b01],
    [0b01, 0b10],
    [0b01, 0b10],
    [0b10, 0b01],
    [0b10, 0b01],
    [0b01, 0b10],
];

// The pair that bit b makes in state s.
pub fn pair(s: usize, b: usize) -> u8
    requires { (s < 16) × (b ≤ 1) }
    ensures { result ≡ pair_of s b }
{
    PAIRS[s][b]
}

// The next three ask what `code` knows, which is public (docs/CONTRACTS.md) and takes a slice: a type of bits would be made for three formulas alone.
// u(k-j), where u(k) = 0 for k < 0
#[tactic(auto, unfolding(crate::specs::Pairs::back))]
fn back(u: &[u8], k: usize, j: usize) -> u8
    requires { k < length u.now }
    ensures { result ≡ back u.now k j }
{
    if k < j { 0 } else { u[k - j] }
}

// c(2k) = u(k) + u(k-3) + u(k-4)
fn first(u: &[u8], k: usize) -> u8
    requires { (k < length u.now) × Bits u.now }
    ensures { result ≡ first u.now k }
{
    back(u, k, 0) ^ back(u, k, 3) ^ back(u, k, 4)
}

// c(2k+1) = u(k) + u(k-1) + u(k-3) + u(k-4): u(k-1) more than c(2k), which is x
fn second(u: &[u8], k: usize, x: u8) -> u8
    requires { (k < length u.now) × (Bits u.now) × (x ≡ first u.now k) }
    ensures { result ≡ second u.now k }
{
    x ^ back(u, k, 1)
}

// The pairs of u, one after another. No pair waits for another, so LLVM makes many at once.
pub fn code(u: &[u8], c: &mut [u8])
    requires { (Bits u.now) × (length c.old ≡ 2 * length u.now) }
    ensures { c.new ≡ coded u.now }
{
    // k is computed with: pair k is made of u(k) and the places before it
    for k in 0..u.len() {
        let x = first(u, k);
        c[2 * k] = x;
        c[2 * k + 1] = second(u, k, x);
    }
}
