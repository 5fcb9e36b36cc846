// The blocks whose parity bits stand after d and are worked out by division: access and SCH (000, 4.6, 4.7).
ghost use Rattle.std.specs.Prelude.{◌++◌, ◌≡◌, Ok, ◌+◌, ◌-◌, ◌*◌, ◌≤◌, ◌<◌, ◌^◌, length, take, drop};
ghost use Rattle.answers.specs.Answers.{Meets};
ghost use Rattle.bits.specs.Bits.{Bits, Symbols, ones, zeros};
ghost use Rattle.trellis.specs.Nearest.{longest, nearest, nearest_count};
ghost use Rattle.convolution.specs.Pairs.{coded};
ghost use Rattle.coder.specs.Entries.{Given};
ghost use Rattle.coder.specs.Received.{block_heard, hands};
ghost use Rattle.coder.specs.Whose.{block_named, naming};
ghost use Rattle.coder.specs.laws.Whose.{block_bits};
ghost use Rattle.coder.specs.laws.Format.{size, generator_of, laid_out};

use crate::Named;
use crate::format::Format;
use answers::Unheard;
use trellis::LONGEST;

// d, then ones up to place m, then zeros.
pub(crate) fn append_ones(d: &[u8], m: usize, u: &mut [u8])
    requires { (length d.now ≤ m) × (m ≤ length u.old) }
    ensures { u.new ≡ d.now ++ (ones (m - length d.now) ++ zeros (length u.old - m)) }
{
    let n = d.len();
    let l = u.len();
    u[0..n].copy_from_slice(d);
    u[n..m].fill(1);
    u[m..l].fill(0);
}

// d, its parity bits with the colour added, and four zeros. The parity bits are what d followed by ones leaves.
fn protect(f: Format, colour: u64, d: &[u8], u: &mut [u8])
    requires { (Bits d.now) × (length d.now ≡ f.bits) × (length u.old ≡ size f) }
    ensures { u.new ≡ laid_out f.generator f.degree colour d.now }
{
    let n = d.len();
    let m = n + f.degree as usize;
    append_ones(d, m, u);
    let p = parity::remainder(f.generator, f.degree, &u[0..m]);
    bits::put_digits(p ^ colour, &mut u[n..m]);
}

// The pairs of that u. Inline, so LLVM makes code for each format: an access burst takes 223 instructions, and 423 without.
#[inline]
pub(crate) fn code(f: Format, colour: u64, d: &[u8], c: &mut [u8])
    requires { Given 1 f.bits f.coded d.now c.old }
    ensures { c.new ≡ coded (laid_out f.generator f.degree colour d.now) }
{
    let l = d.len() + f.degree as usize + 4;
    let mut u = [0u8; LONGEST];
    protect(f, colour, d, &mut u[0..l]);
    convolution::code(&u[0..l], c);
}

// THE nearest block to c, u, in the first places of u, and in how many places its pairs disagree with c.
pub(crate) fn decode(f: Format, c: &[u8], u: &mut [u8; LONGEST]) -> u16
    requires { (Symbols c.now) × (length c.now ≡ f.coded) }
    ensures { (u.new ≡ nearest c.now (size f) ++ drop (size f) u.old) × (result ≡ nearest_count c.now (size f)) }
{
    trellis::nearest(c, f.bits + f.degree as usize + 4, u)
}

// The nearest block to c: its first bits are handed over where the parity bits within it, the colour added once more, are good.
pub(crate) fn receive(f: Format, colour: u64, c: &[u8], d: &mut [u8]) -> Result<u16, Unheard>
    requires { (Given 2 f.coded f.bits c.now d.old) × (colour < 2 ^ f.degree) }
    ensures { Meets (hands (block_heard (generator_of f) colour f.bits c.now) d.old) result d.new }
{
    let n = d.len();
    let m = n + f.degree as usize;
    let mut u = [0u8; LONGEST];
    let count = decode(f, c, &mut u);
    if parity::leaves_ones(f.generator, f.degree, colour, &u[0..m]) {
        d.copy_from_slice(&u[0..n]);
        return Ok(count);
    }
    Err(Unheard::Bad(count))
}

// The identity that the nearest block to c names, and its count; the block's bits stand in the first places of u.
pub(crate) fn name(f: Format, c: &[u8], u: &mut [u8; LONGEST]) -> Named
    requires { (f.degree ≤ 8) × (Symbols c.now) × (length c.now ≡ f.coded) }
    ensures { (Ok result ≡ naming (Ok tt) (block_named (generator_of f) f.bits c.now)) × (take f.bits u.new ≡ block_bits (generator_of f) f.bits c.now) }
{
    let m = f.bits + f.degree as usize;
    let count = decode(f, c, u);
    let identity = parity::colour_of(f.generator, f.degree, &u[0..m]);
    Named {
        identity: identity as u8,
        count,
    }
}
