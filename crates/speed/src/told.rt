// What each entry tells, in one number.
use crate::calls::InOne;
use answers::{Refusal, Unheard};
use chart::{Taken, Totals, Untaken};
use coder::Named;
use efr::Unchecked;
use hub::Said;
use marking::{Fault, No};

// A refusal above the count.
fn above(why: Refusal, count: u16) -> u32 {
    65536 * u32::from(u8::from(why)) + u32::from(count)
}

impl InOne for Result<(), Refusal> {
    fn in_one(self) -> u32 {
        match self {
            Ok(()) => 0,
            Err(why) => u32::from(u8::from(why)),
        }
    }
}

impl InOne for Result<u16, Unheard> {
    fn in_one(self) -> u32 {
        match self {
            Ok(count) => u32::from(count),
            Err(Unheard::Refused(why)) => above(why, 0),
            Err(Unheard::Bad(count)) => above(Refusal::Parity, count),
        }
    }
}

impl InOne for Result<u16, Unchecked> {
    fn in_one(self) -> u32 {
        match self {
            Ok(count) => u32::from(count),
            Err(Unchecked::Refused(why)) => above(why, 0),
            Err(Unchecked::BadParity(count)) => above(Refusal::Parity, count),
            Err(Unchecked::BadCrc(count)) => above(Refusal::Crc, count),
        }
    }
}

impl InOne for Result<Named, Refusal> {
    fn in_one(self) -> u32 {
        match self {
            Ok(named) => 256 * u32::from(named.identity) + u32::from(named.count),
            Err(why) => above(why, 0),
        }
    }
}

impl InOne for Result<(), No> {
    fn in_one(self) -> u32 {
        match self {
            Ok(()) => 0,
            Err(No::Wrong(Fault::Length)) => 1,
            Err(No::Wrong(Fault::Tail)) => 2,
            Err(No::Wrong(Fault::Count)) => 3,
            Err(No::Wrong(Fault::Fewest)) => 4,
            Err(No::Refused(why)) => above(why, 0),
        }
    }
}

// The place, with the count of a request; or the number of a refusal.
impl InOne for Result<Said, Refusal> {
    fn in_one(self) -> u32 {
        match self {
            Ok(Said::Place(place)) => u32::from(place),
            Ok(Said::Removed) => 0,
            Ok(Said::Request(place, count)) => 256 * u32::from(place) + u32::from(count),
            Err(why) => u32::from(u8::from(why)),
        }
    }
}

// Two numbers, since a good block is told by its kind and count, and a wait by 0.
impl InOne for Result<Taken, Untaken> {
    fn in_one(self) -> u32 {
        match self {
            Ok(Taken::Waiting) => 0,
            Ok(Taken::Speech(_, count)) => 1000 + u32::from(count),
            Ok(Taken::Facch(_, count)) => 2000 + u32::from(count),
            Err(Untaken::Refused(why)) => above(why, 0),
            Err(Untaken::Bad(_, count)) => above(Refusal::Parity, count),
            Err(Untaken::Tie(_)) => above(Refusal::Flags, 0),
        }
    }
}

impl InOne for Totals {
    fn in_one(self) -> u32 {
        self.speech ^ self.facch ^ self.refused ^ self.counts
    }
}
