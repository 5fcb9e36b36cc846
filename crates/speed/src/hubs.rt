// The calls of a hub. The hub is as full as it gets, and the one that is sought stands at its first place, at its last, or nowhere.
use crate::calls::{InOne, turn};
use crate::named::BURST;
use hub::{Answered, Hub};

// A hub at which so many identities were enrolled one after another, from this one on; 0 comes after 63.
fn filled(first: u8, kits: u8) -> Hub {
    let mut hub = Hub::fresh();
    for i in 0..kits {
        hub = hub.enrol((first as u64 + i as u64) % 64).next;
    }
    hub
}

// So many calls with a number, from 28 on.
fn called<F: FnMut(Hub, u64) -> Answered>(mut hub: Hub, calls: u8, mut call: F) -> u32
    requires { F.IsAlwaysCallable call }
{
    let mut told = 0;
    for i in 0..calls {
        let Answered { said, next } = call(hub, 28 + i as u64);
        told = said.in_one();
        hub = next;
    }
    told
}

// The last of so many calls enrols at place 27 and their number: at the last place, if there are two.
pub fn enrol(calls: u8) -> u32 {
    called(filled(0, 28), calls, Hub::enrol)
}

pub fn remove(calls: u8) -> u32 {
    called(filled(0, 30), calls, Hub::remove)
}

// A burst of identity 7, and at the thirty places those from `first` on: 7 stands at the first place if that is 7, at the last if it is 42, and nowhere if it is 8.
pub fn hear(first: u8, calls: u8) -> u32 {
    let mut e = BURST;
    turn(&mut e, 5);
    let mut d = [0u8; 8];
    let mut hub = filled(first, 30);
    let mut told = 0;
    for _ in 0..calls {
        let Answered { said, next } = hub.hear(&e, &mut d);
        told = said.in_one();
        hub = next;
        turn(&mut e, 7);
    }
    told
}
