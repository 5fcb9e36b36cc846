// The public face for blocks: each entry answers every length, byte value and number (01, The bench and its edges).
#![tactic(auto)]

mod block;
mod control;
mod format;
mod sacch;
mod speech;

ghost use Rattle.std.specs.Prelude.{◌≡◌, Err, eqb, leb, length};
ghost use Rattle.answers.specs.Answers.{Meets};
ghost use Rattle.bits.specs.Bits.{none_over, both};
ghost use Rattle.coder.specs.Entries.{judged, speech_sent, control_sent, sacch_sent, access_sent, sch_sent, unreached, trellis_viewed};
ghost use Rattle.coder.specs.Received.{block_heard, reception, speech_received, control_received, sacch_received, access_received, sch_received};
ghost use Rattle.coder.specs.Whose.{access_whose, any_access_received};
ghost use Rattle.coder.specs.laws.Format.{generator_of};

use answers::{Refusal, Unheard};
use format::Format;
use trellis::LONGEST;

// The trellis view: the sixteen numbers by state; all are 65,535 where the call is refused.
// No Result holds the row, since `trellis_viewed` promises one of a refusal too.
#[derive(Drop)]
pub struct View {
    pub told: Result<(), Refusal>,
    pub row: [u16; 16],
}

// Whose request an access burst is: the identity that the nearest burst names, and in how many places that burst disagrees with what was received.
#[derive(Clone, Copy, PartialEq, Eq)]
pub struct Named {
    pub identity: u8,
    pub count: u16,
}

// The view reads at most 228 pairs, however long a block may be.
const VIEWED: usize = 228;

// The entries are no twins: each has code of its own for its block and a clause of its own, and one for all would be handed code, lengths and definition.
// The first refusal that applies to an entry that reads `reads` bytes, none over `most`, into `writes` bytes, or none.
fn judge(
    d: &[u8],
    most: u8,
    reads: usize,
    out: usize,
    writes: usize,
    identity: u64,
) -> Result<(), Refusal>
    ensures { result ≡ judged (both (eqb (length d.now) reads) (eqb out writes)) (none_over most d.now) (leb identity 63) }
{
    if d.len() != reads || out != writes {
        return Err(Refusal::Length);
    }
    if !bits::none_over(d, most) {
        return Err(Refusal::NotBits);
    }
    if identity > 63 {
        return Err(Refusal::Identity);
    }
    Ok(())
}

// A block received whose parity bits, the identity added to them, are judged by division.
fn receive_block(f: Format, identity: u64, c: &[u8], d: &mut [u8]) -> Result<u16, Unheard>
    ensures { Meets (reception f.coded f.bits identity c.now (block_heard (generator_of f) identity f.bits c.now) d.old) result d.new }
{
    judge(c, bits::RECEIVED, f.coded, d.len(), f.bits, identity)?;
    block::receive(f, identity, c, d)
}

// Speech block: 260 bits to 456.
pub fn send_speech(d: &[u8], c: &mut [u8]) -> Result<(), Refusal>
    ensures { Meets (speech_sent d.now c.old) result c.new }
{
    judge(d, bits::SENT, 260, c.len(), 456, 0)?;
    speech::code(d, c);
    Ok(())
}

// Control block (SACCH and FACCH): 184 bits to 456.
pub fn send_control(d: &[u8], c: &mut [u8]) -> Result<(), Refusal>
    ensures { Meets (control_sent d.now c.old) result c.new }
{
    judge(d, bits::SENT, 184, c.len(), 456, 0)?;
    control::code(d, c);
    Ok(())
}

// SACCH message: 184 bits to four bursts, 464.
pub fn send_sacch(d: &[u8], e: &mut [u8]) -> Result<(), Refusal>
    ensures { Meets (sacch_sent d.now e.old) result e.new }
{
    judge(d, bits::SENT, 184, e.len(), 464, 0)?;
    sacch::code(d, e);
    Ok(())
}

// Access: the identity and 8 bits to 36.
pub fn send_access(identity: u64, d: &[u8], e: &mut [u8]) -> Result<(), Refusal>
    ensures { Meets (access_sent identity d.now e.old) result e.new }
{
    judge(d, bits::SENT, 8, e.len(), 36, identity)?;
    block::code(format::ACCESS, identity, d, e);
    Ok(())
}

// SCH: 25 bits to 78.
pub fn send_sch(d: &[u8], e: &mut [u8]) -> Result<(), Refusal>
    ensures { Meets (sch_sent d.now e.old) result e.new }
{
    judge(d, bits::SENT, 25, e.len(), 78, 0)?;
    block::code(format::SCH, 0, d, e);
    Ok(())
}

// Speech block received: 456 bits to 260.
pub fn receive_speech(c: &[u8], d: &mut [u8]) -> Result<u16, Unheard>
    ensures { Meets (speech_received c.now d.old) result d.new }
{
    judge(c, bits::RECEIVED, 456, d.len(), 260, 0)?;
    speech::receive(c, d)
}

// Control block received: 456 bits to 184.
pub fn receive_control(c: &[u8], d: &mut [u8]) -> Result<u16, Unheard>
    ensures { Meets (control_received c.now d.old) result d.new }
{
    judge(c, bits::RECEIVED, 456, d.len(), 184, 0)?;
    control::receive(c, d)
}

// SACCH message received: four bursts, 464 bits, to 184.
pub fn receive_sacch(e: &[u8], d: &mut [u8]) -> Result<u16, Unheard>
    ensures { Meets (sacch_received e.now d.old) result d.new }
{
    judge(e, bits::RECEIVED, 464, d.len(), 184, 0)?;
    sacch::receive(e, d)
}

// Access received: the identity and 36 bits to 8.
pub fn receive_access(identity: u64, e: &[u8], d: &mut [u8]) -> Result<u16, Unheard>
    ensures { Meets (access_received identity e.now d.old) result d.new }
{
    receive_block(format::ACCESS, identity, e, d)
}

// Whose access burst it is: of 36 received bits, the one identity under which they are accepted.
pub fn whose_access(e: &[u8]) -> Result<Named, Refusal>
    ensures { result ≡ access_whose e.now }
{
    judge(e, bits::RECEIVED, 36, 0, 0, 0)?;
    Ok(block::name(format::ACCESS, e, &mut [0; LONGEST]))
}

// Access received for whichever identity it is: of 36 bits, the one identity under which they are accepted, and the 8 bits.
pub fn receive_any_access(e: &[u8], d: &mut [u8]) -> Result<Named, Refusal>
    ensures { Meets (any_access_received e.now d.old) result d.new }
{
    judge(e, bits::RECEIVED, 36, d.len(), 8, 0)?;
    let mut u = [0; LONGEST];
    let named = block::name(format::ACCESS, e, &mut u);
    d.copy_from_slice(&u[0..8]);
    Ok(named)
}

// SCH received: 78 bits to 25.
pub fn receive_sch(e: &[u8], d: &mut [u8]) -> Result<u16, Unheard>
    ensures { Meets (sch_received e.now d.old) result d.new }
{
    receive_block(format::SCH, 0, e, d)
}

// Trellis view: 2t received bits, t from 0 to 228, to the fewest disagreements of any t bits that end in each state.
pub fn view_trellis(r: &[u8]) -> View
    ensures { Meets (trellis_viewed r.now) result.told result.row }
{
    if r.len() % 2 != 0 {
        return unseen(Refusal::Length);
    }
    if r.len() > 2 * VIEWED {
        return unseen(Refusal::Length);
    }
    if !bits::none_over(r, bits::RECEIVED) {
        return unseen(Refusal::NotBits);
    }
    View {
        told: Ok(()),
        row: trellis::view(r),
    }
}

// A view that is refused.
fn unseen(why: Refusal) -> View
    ensures { (result.told ≡ Err why) × (result.row ≡ unreached) }
{
    View {
        told: Err(why),
        row: [65535; 16],
    }
}
