// The sender: block n begins in the bursts 4n to 4n+3, which it writes, and goes on in the four after them (01, Bursts and streams).
ghost use Rattle.std.specs.Prelude.{◌≡◌, true, ◌≤◌, length};
ghost use Rattle.bits.specs.Bits.{Bits};
ghost use Rattle.answers.specs.Answers.{Meets};
ghost use Rattle.places.specs.Places.{four, flags_of};
ghost use Rattle.stream.specs.Sending.{fresh_sender, is_facch, is_block, block_of, flag_of, send_told, end_told, send_answer, end_answer};
ghost use Rattle.stream.specs.laws.Sending.{Codable};

use answers::Refusal;
use burst::BlockNumber;

// How many blocks are sent, whether the stream is ended, and the last block, which is still to go on, with its kind. That a block is FACCH and
// that the stream is ended are flags here: the definitions (specs/Sending) and the theorems are over every value of a sender, and have them so.
#[derive(Clone, Copy)]
pub struct Sender {
    sent: BlockNumber,
    ended: bool,
    facch: bool,
    last: [u8; 456],
}

// What is said of a send or an end, and the next stream.
#[derive(Drop)]
pub struct Sent {
    pub told: Result<(), Refusal>,
    pub next: Sender,
}

// 260 bytes are speech, 184 FACCH.
fn is_block(n: usize) -> bool
    ensures { result ≡ is_block n }
{
    n == 260 || n == 184
}

// The coded bits of a block of either kind. No refusal applies.
fn code(d: &[u8], c: &mut [u8])
    requires { (Bits d.now) × (is_block (length d.now) ≡ true) × (length c.old ≡ 456) }
    ensures { c.new ≡ block_of d.now }
{
    if d.len() == 184 {
        coder::send_control(d, c).unwrap()
    } else {
        coder::send_speech(d, c).unwrap()
    }
}

// Block d begins in four bursts, in which the last one, whose flag is q, goes on; what is left of d to send is its coded bits.
fn begin(d: &[u8], last: &[u8], q: u8, block: &mut [u8], e: &mut [u8])
    requires { (Codable d.now last.now block.old e.old) × (q ≤ 1) }
    ensures { (block.new ≡ block_of d.now) × (e.new ≡ four (block_of d.now) last.now (flags_of (flag_of (is_facch (length d.now))) q)) }
{
    code(d, block);
    places::fill_four(
        block,
        last,
        places::flags_of(u8::from(d.len() == 184), q),
        e,
    );
}

impl Sender {
    // A stream of which nothing is sent.
    #[tactic(auto, unfolding(crate::specs::Sending::fresh_sender, bits::specs::Bits::zeros))]
    pub fn fresh() -> Self
        ensures { result ≡ fresh_sender }
    {
        Self {
            sent: BlockNumber(0),
            ended: false,
            facch: false,
            last: [0; 456],
        }
    }

    // Sends a block, 260 bits of speech or 184 of FACCH, into four bursts, 464 bytes.
    pub fn send(mut self, d: &[u8], e: &mut [u8]) -> Sent
        ensures { Meets (send_answer self d.now e.old) result e.new }
    {
        let told = self.try_send(d, e);
        Sent { told, next: self }
    }

    // Ends the stream: the last block goes on in four more bursts, in which no block begins.
    pub fn end(mut self, e: &mut [u8]) -> Sent
        ensures { Meets (end_answer self e.old) result e.new }
    {
        let told = self.try_end(e);
        Sent { told, next: self }
    }

    // The first refusal that applies to a send, or none: 1, 2, 7, 5.
    #[tactic(auto, unfolding(crate::specs::Sending::send_told, crate::specs::Sending::send_judged))]
    fn judge_send(&self, d: &[u8], e: &[u8]) -> Result<(), Refusal>
        ensures { result ≡ send_told self.now d.now e.now }
    {
        if !is_block(d.len()) || e.len() != 464 {
            return Err(Refusal::Length);
        }
        if !bits::none_over(d, bits::SENT) {
            return Err(Refusal::NotBits);
        }
        if self.ended {
            return Err(Refusal::Ended);
        }
        if self.sent.0 >= 16383 {
            return Err(Refusal::Full);
        }
        Ok(())
    }

    // The first refusal that applies to an end, or none: 1, 7, 6.
    #[tactic(auto, unfolding(crate::specs::Sending::end_told, crate::specs::Sending::end_judged))]
    fn judge_end(&self, e: &[u8]) -> Result<(), Refusal>
        ensures { result ≡ end_told self.now e.now }
    {
        if e.len() != 464 {
            return Err(Refusal::Length);
        }
        if self.ended {
            return Err(Refusal::Ended);
        }
        if self.sent.0 == 0 {
            return Err(Refusal::NothingSent);
        }
        Ok(())
    }

    // Where a send is refused, the stream stays as it was.
    fn try_send(&mut self, d: &[u8], e: &mut [u8]) -> Result<(), Refusal>
        ensures { Meets (send_answer self.old d.now e.old) (record { told = result; next = self.new }) e.new }
    {
        self.judge_send(d, e)?;
        let mut block = [0u8; 456];
        begin(d, &self.last, u8::from(self.facch), &mut block, e);
        self.sent = burst::next_block(self.sent);
        self.facch = d.len() == 184;
        self.last = block;
        Ok(())
    }

    // The same of an end.
    fn try_end(&mut self, e: &mut [u8]) -> Result<(), Refusal>
        ensures { Meets (end_answer self.old e.old) (record { told = result; next = self.new }) e.new }
    {
        self.judge_end(e)?;
        let nothing = [0u8; 456];
        places::fill_four(
            &nothing,
            &self.last,
            places::flags_of(0, u8::from(self.facch)),
            e,
        );
        self.ended = true;
        Ok(())
    }
}
