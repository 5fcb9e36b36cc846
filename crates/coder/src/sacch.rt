// A SACCH message: one control block over four bursts (000, 4.1.4, 4.1.5).
ghost use Rattle.std.specs.Prelude.{◌≡◌};
ghost use Rattle.coder.specs.Blocks.{sacch_message};
ghost use Rattle.places.specs.Places.{gathered};
ghost use Rattle.parity.specs.Division.{control_g};
ghost use Rattle.answers.specs.Answers.{Meets};
ghost use Rattle.coder.specs.Entries.{Given};
ghost use Rattle.coder.specs.Received.{block_heard, hands};

use crate::control;
use answers::Unheard;

// The control block of d, its even and odd places alike, with all flags 1.
pub(crate) fn code(d: &[u8], e: &mut [u8])
    requires { Given 1 184 464 d.now e.old }
    ensures { e.new ≡ sacch_message d.now }
{
    let mut c = [0u8; 456];
    control::code(d, &mut c);
    places::fill_four(&c, &c, 0b11111111, e);
}

// The control block out of its four bursts; the flags are not used.
pub(crate) fn receive(e: &[u8], d: &mut [u8]) -> Result<u16, Unheard>
    requires { Given 2 464 184 e.now d.old }
    ensures { Meets (hands (block_heard control_g 0 184 (gathered e.now)) d.old) result d.new }
{
    let mut c = [0u8; 456];
    places::gather_four(e, &mut c);
    control::receive(&c, d)
}
