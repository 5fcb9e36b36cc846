// The search for the nearest block: forward through the rows, back through the choices.
ghost use Rattle.std.specs.Prelude.{[], ℕ, ◌++◌, reverse, ◌≡◌, ◌+◌, ◌-◌, ◌*◌, ◌/◌, ◌%◌, ◌^◌, ◌≤◌, ◌<◌, length, drop};
ghost use Rattle.bits.specs.Bits.{Symbols};
ghost use Rattle.register.specs.Register.{bit, from};
ghost use Rattle.trellis.specs.Nearest.{row, nearest, nearest_count, longest};
ghost use Rattle.trellis.specs.laws.Memory.{word_of, retrace, bits_of};

use crate::LONGEST;
use crate::memory::Memory;
use crate::steps::{all_costs, cost_place, step};

// The row of no pairs: state 0 has 0, and no bits end in the others.
fn first_row() -> [u16; 16]
    ensures { result ≡ row [] 0 }
{
    [
        0, 65535, 65535, 65535, 65535, 65535, 65535, 65535, 65535, 65535, 65535, 65535, 65535,
        65535, 65535, 65535,
    ]
}

// n goes beside c in this file: README and docs/CONTRACTS.md name `nearest` and `fewest` with the block's length as it is asked.
// The row after n pairs, and in `memory` the choices of each.
fn search<M: Memory>(c: &[u8], n: usize, memory: &mut M) -> [u16; 16]
    requires { (length c.now ≡ 2 * n) × Symbols c.now × ((k : ℕ) → k < n → M.fits memory.old k) }
    ensures row { result ≡ row c.now n }
    ensures kept { (k : ℕ) → k < n → M.holds memory.new k (word_of c.now k) }
{
    let costs = all_costs();
    let mut row = first_row();
    for k in 0..n {
        let w = costs[cost_place(c[2 * k], c[2 * k + 1])];
        memory.keep(k, row, w);
        let next = step(row, w);
        row = next;
    }
    row
}

// That a state is below 16 is asked by the next two and by pair_cost, a line each: a type for it would be made and taken apart at every step.
// The bit that led into state s.
fn newest(s: usize) -> u8
    requires { s < 16 }
    ensures { result ≡ bit 8 s }
{
    (s / 8) as u8
}

// The state before s, by its choice in the word.
fn earlier(s: usize, word: u16) -> usize
    requires { s < 16 }
    ensures { (result ≡ from 8 s (word / 2 ^ s % 2)) × (result < 16) }
{
    2 * (s % 8) + (word as usize >> s) % 2
}

// The walk back from state s after t pairs: it writes bit t - 1, and those before it. It calls itself with the pair number falling to 0: a rule of the
// project (docs/CONTRACTS.md, Forms by place).
fn walk(memory: &[u16; LONGEST], t: usize, s: usize, u: &mut [u8; LONGEST])
    requires { (t ≤ longest) × (s < 16) }
    ensures { u.new ≡ reverse (retrace (bits_of memory.now) t s) ++ drop t u.old }
{
    if t > 0 {
        let k = t - 1;
        u[k] = newest(s);
        walk(memory, k, earlier(s, memory[k]), u);
    }
}

// THE nearest block of n bits, in the first places of u, and in how many places its pairs disagree with c.
pub fn nearest(c: &[u8], n: usize, u: &mut [u8; LONGEST]) -> u16
    requires { (length c.now ≡ 2 * n) × (n ≤ longest) × (length u.old ≡ longest) × Symbols c.now }
    ensures { (u.new ≡ nearest c.now n ++ drop n u.old) × (result ≡ nearest_count c.now n) × (length u.new ≡ longest) }
{
    let mut memory = [0u16; LONGEST];
    let row = search(c, n, &mut memory);
    walk(&memory, n, 0, u);
    row[0]
}

// In how few places a candidate of n bits can disagree with c (02, M-111).
pub fn fewest(c: &[u8], n: usize) -> u16
    requires { (length c.now ≡ 2 * n) × Symbols c.now }
    ensures { result ≡ nearest_count c.now n }
{
    let row = search(c, n, &mut ());
    row[0]
}

// The sixteen numbers after the pairs of c.
pub fn view(c: &[u8]) -> [u16; 16]
    requires { (length c.now ≤ 2 * longest) × (length c.now % 2 ≡ 0) × Symbols c.now }
    ensures { result ≡ row c.now (length c.now / 2) }
{
    search(c, c.len() / 2, &mut ())
}
