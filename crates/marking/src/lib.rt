// Marking (02, M-111): may a decoder answer this block and this count to what was received?
#![tactic(auto)]

ghost use Rattle.std.specs.Prelude.{true, ◌≡◌, ◌-◌, ◌*◌, ◌≤◌, eqb, length, drop};
ghost use Rattle.bits.specs.Bits.{Bits, Symbols, both, none_over};
ghost use Rattle.convolution.specs.Pairs.{coded};
ghost use Rattle.trellis.specs.Nearest.{disagreements, longest};
ghost use Rattle.coder.specs.Entries.{judged};
ghost use Rattle.marking.specs.Marks.{Deserves, BlockMarks, bits_of, reads_of};
ghost use Rattle.marking.specs.declared.No.TheVariants.{Refused};

use answers::Refusal;
use trellis::LONGEST;

// The channel of a block that is marked.
#[derive(Clone, Copy, PartialEq, Eq)]
pub enum Block {
    Speech,
    Control,
    Access,
    Sch,
}

impl Block {
    // How many bytes are received.
    fn reads(self) -> usize
        ensures { result ≡ reads_of self }
    {
        match self {
            Block::Speech | Block::Control => 456,
            Block::Access => 36,
            Block::Sch => 78,
        }
    }

    // How many bits the block has; of the bytes received the first two for each bit count, of speech the first 378.
    fn bits(self) -> usize
        ensures { result ≡ bits_of self }
    {
        match self {
            Block::Speech => 189,
            Block::Control => 228,
            Block::Access => 18,
            Block::Sch => 39,
        }
    }
}

// What is wrong first of a block and its count.
#[derive(Clone, Copy, PartialEq, Eq)]
pub enum Fault {
    // the block has another length than a candidate
    Length,
    // its last four bits are not all 0
    Tail,
    // the count is not in how many places it disagrees with what was received
    Count,
    // another candidate disagrees in fewer
    Fewest,
}

// Why a block and its count do not get yes: what is wrong with them, or why they are not marked.
#[derive(Clone, Copy, PartialEq, Eq)]
pub enum No {
    Wrong(Fault),
    Refused(Refusal),
}

impl From<Refusal> for No {
    ghost from_gives = { λ why no. no ≡ Refused why };

    fn from(why: Refusal) -> No {
        No::Refused(why)
    }
}

// That u holds bits stands in the clauses below, and in no type: convolution::code, which is public (docs/CONTRACTS.md), takes a slice, so a type would be taken off again.
// In how many places what was received, c, disagrees with the coded bits x.
fn count_apart(c: &[u8], x: &[u8]) -> u16
    requires { (length c.now ≡ length x.now) × (length x.now ≤ 2 * longest) }
    ensures { result ≡ disagreements c.now x.now }
{
    let mut sum = 0;
    for (c, x) in c.iter().zip(x) {
        sum += trellis::apart(*x, *c);
    }
    sum
}

// In how many places the pairs of u, which are put into x, disagree with c.
fn code_and_count(c: &[u8], u: &[u8], x: &mut [u8]) -> u16
    requires { (Bits u.now) × (length c.now ≡ 2 * length u.now) × (length u.now ≤ longest) × (length x.old ≡ 2 * length u.now) }
    ensures { result ≡ disagreements c.now (coded u.now) }
{
    convolution::code(u, x);
    count_apart(c, x)
}

// In how many places the pairs of u disagree with c.
fn true_count(c: &[u8], u: &[u8]) -> u16
    requires { (Bits u.now) × (length c.now ≡ 2 * length u.now) × (length u.now ≤ longest) }
    ensures { result ≡ disagreements c.now (coded u.now) }
{
    let n = 2 * u.len();
    let mut x = [0u8; 2 * LONGEST];
    code_and_count(c, u, &mut x[0..n])
}

// Are the last four bits of u all 0?
fn ends_in_zeros(u: &[u8]) -> bool
    requires { 4 ≤ length u.now }
    ensures { result ≡ none_over 0 (drop (length u.now - 4) u.now) }
{
    bits::none_over(&u[u.len() - 4..], 0)
}

// n goes beside c, as `fewest` of trellis has them (docs/CONTRACTS.md).
// What a block u and a count deserve, of n bits, where c was received: what is asked is asked in its order.
fn examine(c: &[u8], n: usize, u: &[u8], count: u64) -> Result<(), No>
    requires { (4 ≤ n) × (n ≤ longest) × (length c.now ≡ 2 * n) × (Symbols c.now) × Bits u.now }
    ensures { Deserves c.now n u.now count result }
{
    if u.len() != n {
        return Err(No::Wrong(Fault::Length));
    }
    if !ends_in_zeros(u) {
        return Err(No::Wrong(Fault::Tail));
    }
    if count != true_count(c, u) as u64 {
        return Err(No::Wrong(Fault::Count));
    }
    if (trellis::fewest(c, n) as u64) < count {
        return Err(No::Wrong(Fault::Fewest));
    }
    Ok(())
}

// The first refusal that applies, or none: r has to have so many bytes, none over 2, and no byte of u may be over 1.
fn judge(r: &[u8], reads: usize, u: &[u8]) -> Result<(), Refusal>
    ensures { result ≡ judged (eqb (length r.now) reads) (both (none_over 2 r.now) (none_over 1 u.now)) true }
{
    if r.len() != reads {
        return Err(Refusal::Length);
    }
    if !bits::none_over(r, bits::RECEIVED) {
        return Err(Refusal::NotBits);
    }
    if !bits::none_over(u, bits::SENT) {
        return Err(Refusal::NotBits);
    }
    Ok(())
}

// The mark of a block u of this channel, and of a count, where r was received: it gets yes, or this is why not.
pub fn mark(block: Block, r: &[u8], u: &[u8], count: u64) -> Result<(), No>
    ensures { BlockMarks block r.now u.now count result }
{
    judge(r, block.reads(), u)?;
    let n = block.bits();
    examine(&r[..2 * n], n, u, count)
}
