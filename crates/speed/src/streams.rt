// The streams: a sender that sends a block so many times, and a receiver that takes the bursts of a block.
ghost use Rattle.std.specs.Prelude.{◌≡◌, ◌≤◌, length};

use crate::calls::{InOne, fill, seen};
use burst::BurstNumber;
use stream::receiver::Receiver;
use stream::sender::Sender;

// A block of D bits, sent so many times.
pub fn send<const D: usize>(calls: u8) -> u32
    requires { D ≤ 1000 }
{
    let mut d = [0u8; D];
    fill(&mut d);
    let mut e = [0u8; 464];
    let mut sender = Sender::fresh();
    let mut told = 0;
    for _ in 0..calls {
        let sent = sender.send(&d, &mut e);
        told = sent.told.in_one();
        sender = sent.next;
    }
    seen(told, &e)
}

// The bursts of a block of D bits that is sent and ended, the flags of the first four as given, taken in order; if so asked, the chart reads the totals after
// each burst.
pub fn take<const D: usize>(calls: u8, flag: u8, charted: bool) -> u32
    requires { D ≤ 1000 }
{
    let mut d = [0u8; D];
    fill(&mut d);
    let mut e = [0u8; 928];
    make(&d, &mut e);
    e[58] = flag;
    e[174] = flag;
    e[290] = flag;
    e[406] = flag;
    take_all(calls, &e, charted)
}

// A block that is sent and ended.
fn make(d: &[u8], e: &mut [u8])
    requires { length e.old ≡ 928 }
{
    let sent = Sender::fresh().send(d, &mut e[0..464]);
    sent.next.end(&mut e[464..928]);
}

// `charted` is a test of one line in the loop that is counted: a closure for it would be no plainer.
fn take_all(calls: u8, e: &[u8; 928], charted: bool) -> u32 {
    let mut d = [0u8; 260];
    let mut receiver = Receiver::fresh();
    let mut told = 0;
    let mut drawn = [0u32; 8];
    for (b, burst) in e.chunks_exact(116).enumerate().take(calls as usize) {
        let number = BurstNumber(b as u32);
        let received = receiver.take(number, burst, &mut d);
        told = received.told.in_one();
        receiver = received.next;
        if charted {
            drawn[b] = receiver.totals().in_one();
        }
    }
    // the totals are looked at, so that no take can leave them out
    if drawn[0] ^ receiver.totals().in_one() > 65534 {
        return 65535;
    }
    seen(told, &d)
}
