// Blocks are counted by n and bursts by B (01, Bursts and streams), each in a type of its own, and the ways from one to the other.
ghost use Rattle.std.specs.Prelude.{◌≡◌, ◌+◌, ◌<◌};
ghost use Rattle.burst.specs.Numbers.{first_burst, ended};

#[derive(Clone, Copy)]
pub struct BlockNumber(pub u16);

#[derive(Clone, Copy)]
pub struct BurstNumber(pub u32);

pub fn next_block(n: BlockNumber) -> BlockNumber
    requires { n.0 < 65535 }
    ensures { result.0 ≡ n.0 + 1 }
{
    BlockNumber(n.0 + 1)
}

pub fn next_burst(b: BurstNumber) -> BurstNumber
    requires { b.0 < 65536 }
    ensures { result.0 ≡ b.0 + 1 }
{
    BurstNumber(b.0 + 1)
}

// The first burst of block n: the one way from a block's number to a burst's.
#[tactic(auto, unfolding(crate::specs::Numbers::first_burst))]
pub fn first_burst(n: BlockNumber) -> BurstNumber
    ensures { result.0 ≡ first_burst n.0 }
{
    BurstNumber(4 * u32::from(n.0))
}

// The block that a burst ends. 01: burst 4n+7 brings the answer for block n; every other burst brings none.
pub fn block_ended(b: BurstNumber) -> Option<BlockNumber>
    requires { b.0 < 65536 }
    ensures { result ≡ ended b.0 }
{
    if b.0 < 7 || b.0 % 4 != 3 {
        return None;
    }
    Some(BlockNumber((b.0 / 4 - 1) as u16))
}
