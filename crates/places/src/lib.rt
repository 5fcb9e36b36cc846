// The places: where a block's coded bits and flags stand in its bursts (000, 3.1.3, 3.1.4, 4.1.4, 4.1.5).
#![tactic(auto)]

mod tables;

ghost use Rattle.std.specs.Prelude.{◌++◌, ◌≡◌, ◌+◌, ◌≤◌, ◌<◌, length};
ghost use Rattle.bits.specs.Bits.{tab};
ghost use Rattle.places.specs.Places.{flag_in, flags_of, four, gathered};
ghost use Rattle.places.specs.laws.Table.{burst_of_twice, four_of_twice, laid, placed_in};

use tables::{bit_rows, place_rows};

// c, and c once more behind it.
fn twice(c: &[u8], whole: &mut [u8])
    requires { length whole.old ≡ length c.now + length c.now }
    ensures { whole.new ≡ c.now ++ c.now }
{
    let n = c.len();
    whole[..n].copy_from_slice(c);
    whole[n..].copy_from_slice(c);
}

// The bits of burst i modulo 4: at e(x) the one that the table has, 57 i further on, of block a where x is even and of block b where it
// is odd. Both blocks stand twice, so that no bit is past the end.
fn fill_bits(i: usize, a: &[u8; 912], b: &[u8; 912], e: &mut [u8])
    requires { (i < 4) × (length e.old ≡ 116) }
    ensures { e.new ≡ tab 116 (laid i a.now b.now) }
{
    for (x, [even, odd]) in bit_rows().iter().enumerate() {
        e[2 * x] = a[usize::from(*even) + 57 * i];
        e[2 * x + 1] = b[usize::from(*odd) + 57 * i];
    }
}

// Flag j of the eight in one byte, the first the highest.
fn flag(flags: u8, j: usize) -> u8
    requires { j < 8 }
    ensures { result ≡ flag_in flags j }
{
    (flags >> (7 - j)) % 2
}

// The flags of a stream's four bursts: hu is p, that of the block that begins, and hl is q, that of the block that goes on (01).
pub fn flags_of(p: u8, q: u8) -> u8
    requires { (p ≤ 1) × (q ≤ 1) }
    ensures { result ≡ flags_of p q }
{
    85 * p + 170 * q
}

// Burst i of four, in which block a begins and block b goes on; both blocks stand twice.
fn fill(i: usize, a: &[u8; 912], b: &[u8; 912], flags: u8, e: &mut [u8])
    requires { (i < 4) × (length e.old ≡ 116) }
    ensures { e.new ≡ burst_of_twice i a.now b.now flags }
{
    fill_bits(i, a, b, e);
    e[57] = flag(flags, 2 * i);
    e[58] = flag(flags, 2 * i + 1);
}

// Four calls, written out: each burst goes into a part of its own (docs/CONTRACTS.md, Forms by place).
// Four bursts, each into its own part.
fn fill_parts(a: &[u8; 912], b: &[u8; 912], flags: u8, e: &mut [u8])
    requires { length e.old ≡ 464 }
    ensures { e.new ≡ four_of_twice a.now b.now flags }
{
    fill(0, a, b, flags, &mut e[0..116]);
    fill(1, a, b, flags, &mut e[116..232]);
    fill(2, a, b, flags, &mut e[232..348]);
    fill(3, a, b, flags, &mut e[348..464]);
}

// Four bursts, in which block a begins and block b goes on. Their flags are hl and hu of each in order, the first the highest bit.
pub fn fill_four(a: &[u8], b: &[u8], flags: u8, e: &mut [u8])
    requires { (length a.now ≡ 456) × (length b.now ≡ 456) × (length e.old ≡ 464) }
    ensures { e.new ≡ four a.now b.now flags }
{
    let mut begins = [0u8; 912];
    twice(a, &mut begins);
    let mut goes_on = [0u8; 912];
    twice(b, &mut goes_on);
    fill_parts(&begins, &goes_on, flags, e);
}

// The bits of a block, each from its place in the eight bursts.
pub fn gather(bursts: &[u8], c: &mut [u8])
    requires { (length bursts.now ≡ 928) × (length c.old ≡ 456) }
    ensures { c.new ≡ tab 456 (placed_in bursts.now) }
{
    for (row, places) in place_rows().iter().enumerate() {
        for (x, place) in places.iter().enumerate() {
            c[8 * row + x] = bursts[usize::from(*place)];
        }
    }
}

// The coded bits of one block out of its four bursts, which serve as its first four and as its last four.
pub fn gather_four(e: &[u8], c: &mut [u8])
    requires { (length e.now ≡ 464) × (length c.old ≡ 456) }
    ensures { c.new ≡ gathered e.now }
{
    let mut bursts = [0u8; 928];
    twice(e, &mut bursts);
    gather(&bursts, c);
}
