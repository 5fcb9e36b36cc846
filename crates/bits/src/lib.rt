// Bytes that are bits: what every crate's refusals and filling loops stand on.
#![tactic(auto)]

ghost use Rattle.std.specs.Prelude.{◌≡◌, max, ◌≤◌, ◌/◌, ◌%◌, ◌^◌, ◌-◌, ◌<◌, length, get_or};
ghost use Rattle.bits.specs.Bits.{Symbols, digits, given_bits, largest, none_over, symbol, tab};

// The largest byte of w, 0 for none: a fold, since `max` is slower here (456 bytes: 103 instructions for 65).
pub fn largest(w: &[u8]) -> u8
    ensures { result ≡ largest w.now }
{
    w.iter().copied().fold(0, u8::max)
}

// The highest byte that may be sent, a bit, and that may be received, a missing bit (01, Numbers given for a no, 2; 02, M-102).
pub const SENT: u8 = 1;

pub const RECEIVED: u8 = 2;

// Is no byte of w over `most`? Asked of the largest: `all` may leave early, so it is no vector code (456 bytes: 1,388 instructions for 65).
#[tactic(auto, unfolding(crate::specs::Bits::none_over))]
pub fn none_over(w: &[u8], most: u8) -> bool
    ensures { result ≡ none_over most w.now }
{
    largest(w) <= most
}

// Bit `at` of x, counted from the lowest.
fn digit(x: u64, at: usize) -> u8
    requires { at < 64 }
    ensures { result ≡ x / 2 ^ at % 2 }
{
    ((x >> at) % 2) as u8
}

// The lowest bits of x, highest first, as many as `out` has places.
pub fn put_digits(x: u64, out: &mut [u8])
    requires { length out.old ≤ 64 }
    ensures { out.new ≡ digits (length out.old) x }
{
    let n = out.len();
    for k in 0..n {
        out[k] = digit(x, n - 1 - k);
    }
}

// `from`, byte for byte, but a missing bit, 2, is given as 0 (02, M-102).
pub fn give(from: &[u8], to: &mut [u8])
    requires { (length to.old ≡ length from.now) × Symbols from.now }
    ensures { to.new ≡ given_bits from.now }
{
    for (k, byte) in to.iter_mut().enumerate() {
        *byte = from[k] % 2;
    }
}

// A byte as what is received can be: 0, 1, or 2 for missing.
#[tactic(auto, unfolding(crate::specs::Bits::symbol))]
pub fn symbol(byte: u8) -> u8
    ensures { result ≡ symbol byte }
{
    byte.min(2)
}

// Each byte so, in its place.
pub fn make_symbols(w: &mut [u8])
    ensures { w.new ≡ tab (length w.old) (λ k. symbol (get_or w.old k 0)) }
{
    for byte in w {
        *byte = symbol(*byte);
    }
}
