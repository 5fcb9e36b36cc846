// What is counted: a call that is made so many times in a row. A bit that is read changes from call to call, so that none repeats another, and what the last
// one wrote is looked at, so that none can be left out.
ghost use Rattle.std.specs.Prelude.{◌≤◌, ◌<◌, length};

// What a call told, in one number.
pub trait InOne {
    fn in_one(self) -> u32;
}

// An entry for C tells one number itself.
impl InOne for u32 {
    fn in_one(self) -> u32 {
        self
    }
}

// Bits in no order that the coding knows.
pub fn fill(d: &mut [u8]) {
    let mut x = 1u32;
    for bit in d.iter_mut() {
        x = x * 75 % 65537;
        *bit = (x % 2) as u8;
    }
}

// The other bit in its place.
pub fn turn(d: &mut [u8], i: usize)
    requires { i < length d.old }
{
    d[i] = 1 - d[i] % 2;
}

// What the last call told, where it left bits.
pub fn seen(told: u32, left: &[u8]) -> u32 {
    if bits::none_over(left, bits::SENT) {
        told
    } else {
        65535
    }
}

// D bits are sent as C.
pub fn encode<const D: usize, const C: usize, T: InOne, F: FnMut(&[u8], &mut [u8]) -> T>(
    calls: u8,
    mut send: F,
) -> u32
    requires enough { 8 ≤ D }
    requires few { (D ≤ 1000) × (C ≤ 1000) }
    requires callable { F.IsAlwaysCallable send }
{
    let mut d = [0u8; D];
    let mut c = [0u8; C];
    fill(&mut d);
    let mut told = 0;
    for _ in 0..calls {
        told = send(&d, &mut c).in_one();
        turn(&mut d, 3);
    }
    seen(told, &c)
}

// C bits, which D were sent as but for one, are received as D.
pub fn decode<
    const D: usize,
    const C: usize,
    S: Drop,
    T: InOne,
    F: FnOnce(&[u8], &mut [u8]) -> S,
    G: FnMut(&[u8], &mut [u8]) -> T,
>(calls: u8, send: F, mut receive: G) -> u32
    requires enough { 8 ≤ C }
    requires few { (D ≤ 1000) × (C ≤ 1000) }
    requires sends { F.IsAlwaysCallable send }
    requires receives { G.IsAlwaysCallable receive }
{
    let mut d = [0u8; D];
    let mut c = [0u8; C];
    fill(&mut d);
    send(&d, &mut c);
    turn(&mut c, 5);
    let mut told = 0;
    for _ in 0..calls {
        told = receive(&c, &mut d).in_one();
        turn(&mut c, 7);
    }
    seen(told, &d)
}
