// The marks of the four channels. What is received is zeros but for place 5. The block has by turns a one in front, whose pairs have ones at seven other
// places, and none: it disagrees in 8 places, then in 1. The second of two calls says yes.
ghost use Rattle.std.specs.Prelude.{◌≤◌};

use crate::calls::{InOne, turn};
use marking::Block;

// In how many places the block with this bit in front disagrees.
fn count_of(bit: u8) -> u64 {
    if bit == 0 { 1 } else { 8 }
}

// R bits are received, and a block of N is marked.
pub fn mark<const R: usize, const N: usize>(calls: u8, block: Block) -> u32
    requires received { 6 ≤ R }
    requires sent { 1 ≤ N }
    requires few { (R ≤ 1000) × (N ≤ 1000) }
{
    let mut r = [0u8; R];
    turn(&mut r, 5);
    let mut u = [0u8; N];
    turn(&mut u, 0);
    let mut told = 0;
    for _ in 0..calls {
        told = marking::mark(block, &r, &u, count_of(u[0])).in_one();
        turn(&mut u, 0);
    }
    told
}
