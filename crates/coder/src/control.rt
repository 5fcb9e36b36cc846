// The control block: its 184 bits, the forty parity bits as the workbook draws them, four zeros (000, 4.1.2; 02, M-104).
ghost use Rattle.std.specs.Prelude.{◌≡◌, length};
ghost use Rattle.answers.specs.Answers.{Meets};
ghost use Rattle.bits.specs.Bits.{Bits};
ghost use Rattle.parity.specs.Division.{control_g};
ghost use Rattle.coder.specs.Blocks.{control_u, control_block};
ghost use Rattle.coder.specs.Entries.{Given};
ghost use Rattle.coder.specs.Received.{block_heard, hands};

use answers::Unheard;
use trellis::LONGEST;

// d, its parity bits, and four zeros.
fn lay_out(d: &[u8], u: &mut [u8])
    requires { (Bits d.now) × (length d.now ≡ 184) × (length u.old ≡ 228) }
    ensures { u.new ≡ control_u d.now }
{
    u[0..184].copy_from_slice(d);
    drawing::put_control(d, &mut u[184..224]);
    u[224..228].fill(0);
}

// The pairs of that u.
pub(crate) fn code(d: &[u8], c: &mut [u8])
    requires { Given 1 184 456 d.now c.old }
    ensures { c.new ≡ control_block d.now }
{
    let mut u = [0u8; 228];
    lay_out(d, &mut u);
    convolution::code(&u, c);
}

// The nearest block to c: its 184 bits are handed over where the forty after them are their parity bits.
pub(crate) fn receive(c: &[u8], d: &mut [u8]) -> Result<u16, Unheard>
    requires { Given 2 456 184 c.now d.old }
    ensures { Meets (hands (block_heard control_g 0 184 c.now) d.old) result d.new }
{
    let mut u = [0u8; LONGEST];
    let count = trellis::nearest(c, 228, &mut u);
    if drawing::is_control(&u[0..224]) {
        d.copy_from_slice(&u[0..184]);
        return Ok(count);
    }
    Err(Unheard::Bad(count))
}
