// A block out of the held bursts: its coded bits from their places in its eight bursts, and its eight flags (01, Bursts and streams).
ghost use Rattle.std.specs.Prelude.{◌≡◌, ◌≤◌, ◌<◌, ltb, length};
ghost use Rattle.bits.specs.Bits.{pick};
ghost use Rattle.places.specs.Places.{hl, hu};
ghost use Rattle.burst.specs.Held.{held_block, held_flag_at, held_flags, saying};

use crate::numbers::{BlockNumber, BurstNumber, first_burst};
use crate::ring::{held_bit, in_order};

// `held` is a slice whose length a clause has, here and in ring.rt: gather_flags, which docs/CONTRACTS.md names, takes it so, and in doubt the other public
// ones are used from outside too; an array would ask more of their callers.
// The coded bits of block n.
pub fn gather_block(n: BlockNumber, held: &[u8], c: &mut [u8])
    requires { (length held.now ≡ 928) × (length c.old ≡ 456) }
    ensures { c.new ≡ held_block held.now n.0 }
{
    let mut bursts = [0u8; 928];
    in_order(first_burst(n), held, &mut bursts);
    places::gather(&bursts, c);
    bits::make_symbols(c);
}

// Where flag i of a block stands in its burst: hu in its first four bursts, hl in its last four.
fn flag_index(i: u32) -> usize
    ensures { (result ≡ pick (ltb i 4) hu hl) × (result < 116) }
{
    if i < 4 { 58 } else { 57 }
}

// Flag i of block n.
#[tactic(auto, unfolding(crate::specs::Held::held_flag_at, crate::specs::Numbers::first_burst))]
fn held_flag(n: BlockNumber, i: u32, held: &[u8]) -> u8
    requires { (i < 8) × (length held.now ≡ 928) }
    ensures { result ≡ held_flag_at held.now n.0 i }
{
    let first = first_burst(n);
    held_bit(BurstNumber(first.0 + i), flag_index(i), held)
}

// Does a flag say b? A missing one says neither 0 nor 1.
#[tactic(auto, unfolding(crate::specs::Held::saying))]
fn says(b: u8, flag: u8) -> u8
    ensures { (result ≡ saying b flag) × (result ≤ 1) }
{
    u8::from(flag == b)
}

// Which of the eight flags of block n say b, in one byte, the first the highest.
pub fn gather_flags(b: u8, n: BlockNumber, held: &[u8]) -> u8
    requires { length held.now ≡ 928 }
    ensures { result ≡ held_flags b held.now n.0 }
{
    let mut flags = 0;
    for i in 0..8 {
        flags = 2 * flags + says(b, held_flag(n, i, held));
    }
    flags
}
