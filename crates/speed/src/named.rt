// Whose request an access burst is, alone and with its bits.
ghost use Rattle.std.specs.Prelude.{◌≤◌};

use crate::calls::{InOne, turn};

// What identity 7 sends for 01101001.
pub const BURST: [u8; 36] = [
    0, 0, 1, 1, 1, 0, 0, 1, 0, 0, 0, 1, 1, 1, 0, 0, 1, 0, 0, 0, 1, 1, 0, 0, 0, 1, 0, 0, 1, 1, 1, 1,
    0, 0, 0, 0,
];

// That burst but for one bit, and for two by turns, is received so many times.
pub fn received<T: InOne, F: FnMut(&[u8]) -> T>(calls: u8, mut receive: F) -> u32
    requires { F.IsAlwaysCallable receive }
{
    let mut e = BURST;
    turn(&mut e, 5);
    let mut told = 0;
    for _ in 0..calls {
        told = receive(&e).in_one();
        turn(&mut e, 7);
    }
    told
}

pub fn any_access(calls: u8) -> u32 {
    let mut d = [0u8; 8];
    received(calls, |e| coder::receive_any_access(e, &mut d))
}
