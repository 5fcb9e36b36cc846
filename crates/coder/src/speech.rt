// The speech block: class 1 reordered with its parity in the middle and coded, class 2 as it is (000, 3.1.2).
ghost use Rattle.std.specs.Prelude.{◌++◌, ◌≡◌, ◌<◌, length, take, drop};
ghost use Rattle.bits.specs.Bits.{Bits, Symbols, given_bits, tab};
ghost use Rattle.coder.specs.Blocks.{speech_p, speech_u_at, speech_block};
ghost use Rattle.parity.specs.Division.{speech_g};
ghost use Rattle.answers.specs.Answers.{Meets};
ghost use Rattle.coder.specs.Entries.{Given};
ghost use Rattle.coder.specs.Received.{all_ones, speech_d_at, speech_heard, hands};
ghost use Rattle.coder.specs.laws.Reordered.{Reordered};

use answers::Unheard;
use trellis::LONGEST;

// Lengths and bits stand in the clauses of this file and of control.rt and sacch.rt, and in no type: the entries' one test leaves them together, as `Given`; an array type would say the lengths alone.
// p(0), p(1), p(2): what the first 50 bits followed by ones leave.
fn put_parity(d: &[u8], p: &mut [u8])
    requires { (Bits d.now) × (length d.now ≡ 260) × (length p.old ≡ 3) }
    ensures { p.new ≡ speech_p d.now }
{
    let mut w = [0u8; 53];
    crate::block::append_ones(&d[0..50], 53, &mut w);
    bits::put_digits(parity::remainder(parity::SPEECH, 3, &w), p);
}

// u(k) = d(2k) and u(184-k) = d(2k+1) for k = 0..90.
fn reorder(d: &[u8], u: &mut [u8])
    requires { (length d.now ≡ 260) × (length u.old ≡ 189) }
    ensures { Reordered d.now 91 u.new }
{
    for k in 0..91 {
        u[k] = d[2 * k];
        u[184 - k] = d[2 * k + 1];
    }
}

// The same, u(91+k) = p(k) for k = 0..2, and u(185)..u(188) = 0.
fn fill_u(d: &[u8], p: &[u8], u: &mut [u8])
    requires { (length d.now ≡ 260) × (length p.now ≡ 3) × (length u.old ≡ 189) }
    ensures { u.new ≡ tab 189 (speech_u_at d.now p.now) }
{
    reorder(d, u);
    u[91..94].copy_from_slice(p);
    u[185..189].fill(0);
}

// c(0)..c(377) are the pairs of u, c(378+k) = d(182+k).
pub(crate) fn code(d: &[u8], c: &mut [u8])
    requires { Given 1 260 456 d.now c.old }
    ensures { c.new ≡ speech_block d.now }
{
    let mut p = [0u8; 3];
    put_parity(d, &mut p);
    let mut u = [0u8; 189];
    fill_u(d, &p, &mut u);
    convolution::code(&u, &mut c[0..378]);
    c[378..456].copy_from_slice(&d[182..260]);
}

// The protected bits d(0)..d(181) out of u: d(2k) = u(k) and d(2k+1) = u(184-k).
fn fill_d(u: &[u8], d: &mut [u8])
    requires { (length u.now ≡ 189) × (length d.old ≡ 182) }
    ensures { d.new ≡ tab 182 (speech_d_at u.now) }
{
    for j in 0..91 {
        d[2 * j] = u[j];
        d[2 * j + 1] = u[184 - j];
    }
}

// What the verdict divides: the first 50 bits of d and the three parity bits within u.
fn fill_w(d: &[u8], u: &[u8], w: &mut [u8])
    requires { (length d.now ≡ 182) × (length u.now ≡ 189) × (length w.old ≡ 53) }
    ensures { w.new ≡ take 50 d.now ++ take 3 (drop 91 u.now) }
{
    w[0..50].copy_from_slice(&d[0..50]);
    w[50..53].copy_from_slice(&u[91..94]);
}

// Does it leave all ones?
fn is_good(d: &[u8], u: &[u8]) -> bool
    requires { (Bits d.now) × (Bits u.now) × (length d.now ≡ 182) × (length u.now ≡ 189) }
    ensures { result ≡ all_ones speech_g (take 50 d.now ++ take 3 (drop 91 u.now)) }
{
    let mut w = [0u8; 53];
    fill_w(d, u, &mut w);
    parity::leaves_ones(parity::SPEECH, 3, 0, &w)
}

// The protected bits, and the other 78 as they were received, missing ones as 0.
fn hand_over(first: &[u8], c: &[u8], d: &mut [u8])
    requires { (length first.now ≡ 182) × (length c.now ≡ 456) × (length d.old ≡ 260) × Symbols c.now }
    ensures { d.new ≡ first.now ++ given_bits (drop 378 c.now) }
{
    d[0..182].copy_from_slice(first);
    bits::give(&c[378..456], &mut d[182..260]);
}

// The nearest block to the first 378 bits of c; it is handed over where its parity is good.
pub(crate) fn receive(c: &[u8], d: &mut [u8]) -> Result<u16, Unheard>
    requires { Given 2 456 260 c.now d.old }
    ensures { Meets (hands (speech_heard c.now) d.old) result d.new }
{
    let mut whole = [0u8; LONGEST];
    let count = trellis::nearest(&c[0..378], 189, &mut whole);
    let u = &whole[0..189];
    let mut first = [0u8; 182];
    fill_d(u, &mut first);
    if !is_good(&first, u) {
        return Err(Unheard::Bad(count));
    }
    hand_over(&first, c, d);
    Ok(count)
}
