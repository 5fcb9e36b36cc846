// The receiver: it takes bursts one by one and holds the last eight; burst 4n+7 brings the answer for block n (01, Bursts and streams).
ghost use Rattle.std.specs.Prelude.{◌≡◌, ◌<◌, length};
ghost use Rattle.answers.specs.Answers.{Meets};
ghost use Rattle.stream.specs.Receiving.{fresh_receiver, take_told, block_answer, burst_answer, take_answer};

use answers::Refusal;
use burst::{BlockNumber, BurstNumber};
use chart::{Taken, Totals, Untaken};

// The number of the next burst; the last eight bursts, of which burst B stands at 116 (B mod 8); and the chart's totals (02, M-100).
#[derive(Clone, Copy)]
pub struct Receiver {
    next: BurstNumber,
    held: [u8; 928],
    totals: Totals,
}

// What is said of a take, and the next stream.
#[derive(Drop)]
pub struct Received {
    pub told: Result<Taken, Untaken>,
    pub next: Receiver,
}

// Block n, of the kind that its flags say.
#[tactic(auto, using(crate::proofs::laws::Receiving::held_given), unfolding(crate::specs::Receiving::block_answer))]
fn receive_block(n: BlockNumber, held: &[u8], d: &mut [u8]) -> Result<Taken, Untaken>
    requires { (length held.now ≡ 928) × (length d.old ≡ 260) }
    ensures { Meets (block_answer held.now n.0 d.old) result d.new }
{
    let ones = burst::gather_flags(1, n, held);
    let zeros = burst::gather_flags(0, n, held);
    let mut c = [0u8; 456];
    burst::gather_block(n, held, &mut c);
    kinds::receive(ones, zeros, n, &c, d)
}

// What burst B brings: the answer for the block that it ends, else nothing yet.
#[tactic(auto, unfolding(crate::specs::Receiving::burst_answer, crate::specs::Receiving::at_ending))]
fn answer(b: BurstNumber, held: &[u8], d: &mut [u8]) -> Result<Taken, Untaken>
    requires { (b.0 < 65536) × (length held.now ≡ 928) × (length d.old ≡ 260) }
    ensures { Meets (burst_answer held.now b.0 d.old) result d.new }
{
    match burst::block_ended(b) {
        Some(n) => receive_block(n, held, d),
        None => Ok(Taken::Waiting),
    }
}

impl Receiver {
    // A stream of which nothing is taken.
    #[tactic(auto, unfolding(crate::specs::Receiving::fresh_receiver, bits::specs::Bits::zeros))]
    pub fn fresh() -> Self
        ensures { result ≡ fresh_receiver }
    {
        Self {
            next: BurstNumber(0),
            held: [0; 928],
            totals: Totals::default(),
        }
    }

    // Takes burst B, 116 bits, of which missing ones are 2; a block that it brings is written to d, 260 bytes.
    pub fn take(mut self, b: BurstNumber, e: &[u8], d: &mut [u8]) -> Received
        ensures { Meets (take_answer self b.0 e.now d.old) result d.new }
    {
        let told = self.try_take(b, e, d);
        Received { told, next: self }
    }

    // The first refusal that applies, or none: 1, 2, 5, 4.
    #[tactic(auto, unfolding(crate::specs::Receiving::take_told, crate::specs::Receiving::take_judged))]
    fn judge_take(&self, b: BurstNumber, e: &[u8], d: &[u8]) -> Result<(), Refusal>
        ensures { result ≡ take_told self.now b.0 e.now d.now }
    {
        if e.len() != 116 || d.len() != 260 {
            return Err(Refusal::Length);
        }
        if !bits::none_over(e, bits::RECEIVED) {
            return Err(Refusal::NotBits);
        }
        if self.next.0 >= 65536 {
            return Err(Refusal::Full);
        }
        if b.0 != self.next.0 {
            return Err(Refusal::OutOfTurn);
        }
        Ok(())
    }

    // Where a take is refused, the stream stays as it was.
    fn try_take(&mut self, b: BurstNumber, e: &[u8], d: &mut [u8]) -> Result<Taken, Untaken>
        ensures { Meets (take_answer self.old b.0 e.now d.old) (record { told = result; next = self.new }) d.new }
    {
        self.judge_take(b, e, d)?;
        burst::hold(b, e, &mut self.held);
        let told = answer(b, &self.held, d);
        self.next = burst::next_burst(b);
        self.totals = self.totals.counted(told);
        told
    }

    // The chart's totals: what all answers of this stream add up to.
    pub fn totals(self) -> Totals
        ensures { result ≡ self.totals }
    {
        self.totals
    }
}
