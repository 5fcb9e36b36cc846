// The frame's 320 bits (001, 3.1.1): sixteen zeros, and then nineteen times a fixed one and fifteen bits that the frame carries: C1 to C15, D1 to D260, C16 to C21 and T1 to T4.
ghost use Rattle.std.specs.Prelude.{◌∷◌, ◌≡◌, length};
ghost use Rattle.frames.specs.Frame.{fixed_right};
ghost use Rattle.frames.specs.laws.Layout.{laid_out, taken_out};

// A fixed one, and fifteen bits.
fn put_group(fifteen: &[u8], sixteen: &mut [u8])
    requires { (length fifteen.now ≡ 15) × (length sixteen.old ≡ 16) }
    ensures { sixteen.new ≡ 1 ∷ fifteen.now }
{
    sixteen[0] = 1;
    sixteen[1..].copy_from_slice(fifteen);
}

// The carried bits in their places, with all that is fixed.
pub fn lay_out(carried: &[u8], frame: &mut [u8])
    requires { (length carried.now ≡ 285) × (length frame.old ≡ 320) }
    ensures { frame.new ≡ laid_out carried.now }
{
    frame[..16].fill(0);
    for group in 0..19 {
        put_group(
            &carried[15 * group..15 * group + 15],
            &mut frame[16 * group + 16..16 * group + 32],
        );
    }
}

// The carried bits out of their places.
pub fn take_out(frame: &[u8], carried: &mut [u8])
    requires { (length frame.now ≡ 320) × (length carried.old ≡ 285) }
    ensures { carried.new ≡ taken_out frame.now }
{
    for group in 0..19 {
        carried[15 * group..15 * group + 15].copy_from_slice(
            &frame[16 * group + 17..16 * group + 32],
        );
    }
}

// Are the sixteen sync bits 0 and the nineteen fixed bits 1?
pub fn is_framed(frame: &[u8]) -> bool
    requires { length frame.now ≡ 320 }
    ensures { result ≡ fixed_right frame.now }
{
    bits::none_over(&frame[..16], 0) && (1..20).all(|group| frame[16 * group] == 1)
}
