// Division of bits by a generator polynomial, on which all parity bits stand (01, Coding rules).
#![tactic(auto)]

ghost use Rattle.std.specs.Prelude.{◌≡◌, ◌-◌, ◌≤◌, ◌<◌, ◌^◌, eqb, length};
ghost use Rattle.std.specs.Int.Bits.{bit_xor};
ghost use Rattle.bits.specs.Bits.{Bits, value, digits};
ghost use Rattle.parity.specs.Asked.{Generates};
ghost use Rattle.parity.specs.Division.{remainder};
ghost use Rattle.parity.specs.laws.Brought.{brought_down};

// The generators below their leading power: D^3 + D + 1 is 011 (000, 3.1.2.1, 4.6, 4.7, 3.1.1.1).
pub const SPEECH: u64 = 0b011;

pub const ACCESS: u64 = 0b101111;

pub const SCH: u64 = 0b0101110101;

pub const EFR: u64 = 0b00011101;

// D^degree, as the number whose bit `degree` is 1.
fn power(degree: u32) -> u64
    requires { degree ≤ 62 }
    ensures { result ≡ 2 ^ degree }
{
    1 << degree
}

// The next bit is brought down. What then stands at D^degree, 0 or 1, is the quotient's next bit: so often the divisor is taken away.
fn bring_down(generator: u64, degree: u32, held: u64, bit: u64) -> u64
    requires { (degree ≤ 62) × (generator < 2 ^ degree) × (held < 2 ^ degree) × (bit ≤ 1) }
    ensures { result ≡ brought_down generator (2 ^ degree) held bit }
{
    let brought = 2 * held + bit;
    brought ^ ((power(degree) + generator) * (brought >> degree))
}

// What division of w by D^degree + generator leaves, as a number. The two stay two numbers: docs/CONTRACTS.md names two of the three functions with them as they are, and a type for them and for bits, which callers have as slices, would ask more.
pub fn remainder(generator: u64, degree: u32, w: &[u8]) -> u64
    requires { (Generates generator degree) × (degree ≤ length w.now) × Bits w.now }
    ensures { result ≡ value (remainder (digits degree generator) w.now) }
{
    let mut held = 0;
    for bit in w {
        held = bring_down(generator, degree, held, u64::from(*bit));
    }
    held
}

// What all ones are as a number of `degree` bits.
fn all_ones(degree: u32) -> u64
    requires { degree ≤ 62 }
    ensures { result ≡ 2 ^ degree - 1 }
{
    power(degree) - 1
}

// Does division leave all ones of w, the parity bits at its end having the colour added?
pub fn leaves_ones(generator: u64, degree: u32, colour: u64, w: &[u8]) -> bool
    requires { (Generates generator degree) × (degree ≤ length w.now) × Bits w.now }
    ensures { result ≡ eqb (bit_xor (value (remainder (digits degree generator) w.now)) colour) (2 ^ degree - 1) }
{
    remainder(generator, degree, w) ^ colour == all_ones(degree)
}

// The colour that is added to the parity bits at the end of w: each of its bits turns over one of the ones that division would leave without it.
pub fn colour_of(generator: u64, degree: u32, w: &[u8]) -> u64
    requires { (Generates generator degree) × (degree ≤ length w.now) × Bits w.now }
    ensures { result ≡ bit_xor (value (remainder (digits degree generator) w.now)) (2 ^ degree - 1) }
{
    remainder(generator, degree, w) ^ all_ones(degree)
}
