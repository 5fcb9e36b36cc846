// What every entry says of its call: done, refused with one of 01's numbers, or what was received; and the same in 01's numbers.
#![tactic(auto)]

ghost use Rattle.std.specs.Prelude.{◌≡◌, Some};
ghost use Rattle.answers.specs.Answers.{number_of, of_told, of_heard};
ghost use Rattle.answers.specs.declared.Unheard.TheVariants.{Refused};

// Why there is a no, with its number (01, Numbers given for a no).
#[derive(Clone, Copy, PartialEq, Eq)]
pub enum Refusal {
    // a lent buffer has another length than the table says
    Length = 1,
    // a byte that is read as a bit is over 1 where it is sent, over 2, a missing bit, where it is received (02, M-102)
    NotBits = 2,
    // the identity is over 63
    Identity = 3,
    // the burst's number isn't the next one
    OutOfTurn = 4,
    // 16,383 blocks are sent, or burst 65,535 is taken
    Full = 5,
    // an end with no block sent
    NothingSent = 6,
    // a send or an end after the end
    Ended = 7,
    // the parity is bad
    Parity = 8,
    // as many of a block's flags are 1 as are 0, and its parity is bad as FACCH and as speech (02, M-101 and M-102)
    Flags = 9,
    // the three-bit parity of an enhanced full rate block is good and its CRC is bad (02, M-103)
    Crc = 10,
    // the identity stands at a place of the hub already (02, M-112, as the next three)
    Taken = 14,
    // all thirty places are in use
    AllInUse = 15,
    // nobody stands at the place that is to be freed, or it is over 29
    EmptyPlace = 16,
    // no identity at the hub accepts the burst
    NoneAccepts = 17,
    // a sync bit or a fixed bit of a frame is wrong (02, M-113, as the next)
    FixedBit = 18,
    // C1 to C5 of a frame are neither full rate speech type
    FrameType = 19,
}

// 01's number of a refusal.
impl From<Refusal> for u8 {
    ghost from_gives = { λ why number. number ≡ number_of why };

    fn from(why: Refusal) -> u8 {
        why as u8
    }
}

// Why a block that is received isn't handed over.
#[derive(Clone, Copy, PartialEq, Eq)]
pub enum Unheard {
    Refused(Refusal),
    // the parity is bad; with the count
    Bad(u16),
}

impl From<Refusal> for Unheard {
    ghost from_gives = { λ why said. said ≡ Refused why };

    fn from(why: Refusal) -> Unheard {
        Self::Refused(why)
    }
}

// What is returned: 01's number, if one is given, and the count, if 01 says that it is returned besides.
#[derive(Clone, Copy, PartialEq, Eq)]
pub struct Returned {
    pub number: Option<u16>,
    pub count: Option<u16>,
}

// No From says this: it is half of what is returned, and the other half differs.
// The number of a refusal is given.
pub fn given(why: Refusal) -> Option<u16>
    ensures { result ≡ Some (number_of why) }
{
    Some(u16::from(u8::from(why)))
}

impl From<Result<(), Refusal>> for Returned {
    ghost from_gives = { λ told returned. returned ≡ of_told told };

    fn from(told: Result<(), Refusal>) -> Returned {
        match told {
            Ok(()) => Returned {
                number: None,
                count: None,
            },
            Err(why) => Returned {
                number: given(why),
                count: None,
            },
        }
    }
}

impl From<Result<u16, Unheard>> for Returned {
    ghost from_gives = { λ heard returned. returned ≡ of_heard heard };

    fn from(heard: Result<u16, Unheard>) -> Returned {
        match heard {
            Ok(count) => Returned {
                number: None,
                count: Some(count),
            },
            Err(Unheard::Refused(why)) => Returned {
                number: given(why),
                count: None,
            },
            Err(Unheard::Bad(count)) => Returned {
                number: given(Refusal::Parity),
                count: Some(count),
            },
        }
    }
}
