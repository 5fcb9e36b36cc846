// One received pair: the row of sixteen path counts before it and after it, and the sixteen choices.
ghost use Rattle.std.specs.Prelude.{◌≡◌, ◌+◌, ◌*◌, ◌/◌, ◌%◌, ◌≤◌, ◌<◌, min, ltb};
ghost use Rattle.bits.specs.Bits.{pick, tab, value, differ};
ghost use Rattle.convolution.specs.Pairs.{pair_of};
ghost use Rattle.trellis.specs.laws.Steps.{cost_into, cost_table, step_at, chosen_at, turned};

use convolution::pair;

// Does received r disagree with coded bit x? A missing bit, 2, disagrees with nothing (02, M-102).
#[tactic(auto, unfolding(bits::specs::Bits::differ, bits::specs::Bits::is_missing))]
pub fn apart(x: u8, r: u8) -> u16
    ensures { (result ≡ differ x r) × (result ≤ 1) }
{
    u16::from(r != 2 && x != r)
}

// In how many places the pair of bit b in state s disagrees with the received pair.
fn pair_cost(s: usize, b: usize, x: u8, y: u8) -> u16
    requires { (s < 16) × (b ≤ 1) }
    ensures { (result ≡ differ (pair_of s b / 2) x + differ (pair_of s b % 2) y) × (result ≤ 2) }
{
    let p = pair(s, b);
    apart(p / 2, x) + apart(p % 2, y)
}

// What the second way into each state costs where x and y are received; the first costs what the second way into the state eight further on does.
fn costs(x: u8, y: u8) -> [u16; 16]
    ensures { result ≡ tab 16 (cost_into x y) }
{
    [
        pair_cost(1, 0, x, y),
        pair_cost(3, 0, x, y),
        pair_cost(5, 0, x, y),
        pair_cost(7, 0, x, y),
        pair_cost(9, 0, x, y),
        pair_cost(11, 0, x, y),
        pair_cost(13, 0, x, y),
        pair_cost(15, 0, x, y),
        pair_cost(1, 1, x, y),
        pair_cost(3, 1, x, y),
        pair_cost(5, 1, x, y),
        pair_cost(7, 1, x, y),
        pair_cost(9, 1, x, y),
        pair_cost(11, 1, x, y),
        pair_cost(13, 1, x, y),
        pair_cost(15, 1, x, y),
    ]
}

// Where the costs of x and y stand among those of the nine pairs that can be received.
pub fn cost_place(x: u8, y: u8) -> usize
    requires { (x ≤ 2) × (y ≤ 2) }
    ensures { (result ≡ 3 * x + y) × (result < 9) }
{
    3 * x as usize + y as usize
}

// The costs of the nine, one after another.
pub fn all_costs() -> [[u16; 16]; 9]
    ensures { result ≡ cost_table }
{
    [
        costs(0, 0),
        costs(0, 1),
        costs(0, 2),
        costs(1, 0),
        costs(1, 1),
        costs(1, 2),
        costs(2, 0),
        costs(2, 1),
        costs(2, 2),
    ]
}

// A count and one step's cost; 65,535 stays what it is.
fn plus(a: u16, c: u16) -> u16
    ensures { result ≡ min (a + c) 65535 }
{
    a.saturating_add(c)
}

// The fewer of the two ways into a state: from count a at cost c, or from count b at cost d.
fn join(a: u16, c: u16, b: u16, d: u16) -> u16
    ensures { result ≡ min (min (a + c) 65535) (min (b + d) 65535) }
{
    plus(a, c).min(plus(b, d))
}

// 1 where the second way is the cheaper one. On equal counts the first is kept, which has 0 at the first difference.
fn cheaper(a: u16, c: u16, b: u16, d: u16) -> u16
    ensures { (result ≡ pick (ltb (min (b + d) 65535) (min (a + c) 65535)) 1 0) × (result ≤ 1) }
{
    let p = plus(a, c);
    let q = plus(b, d);
    u16::from(q < p)
}

// The row after one more received pair, whose costs are w: eight pairs of states, each of which goes to two. The sixteen are written out, as docs/SPEED.md
// counts them: vector code.
pub fn step(row: [u16; 16], w: [u16; 16]) -> [u16; 16]
    ensures { result ≡ tab 16 (step_at row w) }
{
    [
        join(row[0], w[8], row[1], w[0]),
        join(row[2], w[9], row[3], w[1]),
        join(row[4], w[10], row[5], w[2]),
        join(row[6], w[11], row[7], w[3]),
        join(row[8], w[12], row[9], w[4]),
        join(row[10], w[13], row[11], w[5]),
        join(row[12], w[14], row[13], w[6]),
        join(row[14], w[15], row[15], w[7]),
        join(row[0], w[0], row[1], w[8]),
        join(row[2], w[1], row[3], w[9]),
        join(row[4], w[2], row[5], w[10]),
        join(row[6], w[3], row[7], w[11]),
        join(row[8], w[4], row[9], w[12]),
        join(row[10], w[5], row[11], w[13]),
        join(row[12], w[6], row[13], w[14]),
        join(row[14], w[7], row[15], w[15]),
    ]
}

// The sixteen choices of one received pair, whose costs are w, in one word: that of state s in bit s. They are put there one after another, from state 14
// down, and that of state 15 on top: so LLVM finds them as they stand in its vectors.
pub fn choices(row: [u16; 16], w: [u16; 16]) -> u16
    ensures { result ≡ value (tab 16 (turned (chosen_at row w))) }
{
    let n14 = cheaper(row[12], w[6], row[13], w[14]);
    let n13 = cheaper(row[10], w[5], row[11], w[13]) | (n14 << 1);
    let n12 = cheaper(row[8], w[4], row[9], w[12]) | (n13 << 1);
    let n11 = cheaper(row[6], w[3], row[7], w[11]) | (n12 << 1);
    let n10 = cheaper(row[4], w[2], row[5], w[10]) | (n11 << 1);
    let n9 = cheaper(row[2], w[1], row[3], w[9]) | (n10 << 1);
    let n8 = cheaper(row[0], w[0], row[1], w[8]) | (n9 << 1);
    let n7 = cheaper(row[14], w[15], row[15], w[7]) | (n8 << 1);
    let n6 = cheaper(row[12], w[14], row[13], w[6]) | (n7 << 1);
    let n5 = cheaper(row[10], w[13], row[11], w[5]) | (n6 << 1);
    let n4 = cheaper(row[8], w[12], row[9], w[4]) | (n5 << 1);
    let n3 = cheaper(row[6], w[11], row[7], w[3]) | (n4 << 1);
    let n2 = cheaper(row[4], w[10], row[5], w[2]) | (n3 << 1);
    let n1 = cheaper(row[2], w[9], row[3], w[1]) | (n2 << 1);
    let n0 = cheaper(row[0], w[8], row[1], w[0]) | (n1 << 1);
    n0 | (cheaper(row[14], w[7], row[15], w[15]) << 15)
}
