// Enhanced full rate (02, M-103): 244 bits pass the preliminary stage, then the speech block is coder's.
#![tactic(auto)]

ghost use Rattle.std.specs.Prelude.{◌≡◌, Ok, length};
ghost use Rattle.answers.specs.Answers.{Meets};
ghost use Rattle.bits.specs.Bits.{Bits};
ghost use Rattle.efr.specs.Answers.{badly, checks, of_checked, unchecked};
ghost use Rattle.efr.specs.Entries.{efr_received, efr_sent, with_crc};
ghost use Rattle.preliminary.specs.Stage.{s_of, w_of};

use answers::{Refusal, Returned, Unheard};

// Why an enhanced full rate block that is received isn't handed over.
#[derive(Clone, Copy, PartialEq, Eq)]
pub enum Unchecked {
    Refused(Refusal),
    // the three-bit parity is bad; with the count
    BadParity(u16),
    // the three-bit parity is good and the CRC is bad; with the count
    BadCrc(u16),
}

// The parity that the speech entry finds bad is the three-bit one.
impl From<Unheard> for Unchecked {
    ghost from_gives = { λ why said. said ≡ unchecked why };

    fn from(why: Unheard) -> Unchecked {
        match why {
            Unheard::Refused(why) => Unchecked::Refused(why),
            Unheard::Bad(count) => Unchecked::BadParity(count),
        }
    }
}

// A check is bad: its number, and the count.
fn bad(why: Refusal, count: u16) -> Returned
    ensures { result ≡ badly why count }
{
    Returned {
        number: answers::given(why),
        count: Some(count),
    }
}

// What is returned of it. Neither Result nor Returned is a type of this crate, so that it may have no From between the two.
pub fn of_checked(checked: Result<u16, Unchecked>) -> Returned
    ensures { result ≡ of_checked checked }
{
    match checked {
        Ok(count) => Returned {
            number: None,
            count: Some(count),
        },
        Err(Unchecked::Refused(why)) => Returned {
            number: answers::given(why),
            count: None,
        },
        Err(Unchecked::BadParity(count)) => bad(Refusal::Parity, count),
        Err(Unchecked::BadCrc(count)) => bad(Refusal::Crc, count),
    }
}

// Enhanced full rate block: 244 bits to 456.
pub fn send_efr(s: &[u8], c: &mut [u8]) -> Result<(), Refusal>
    ensures { Meets (efr_sent s.now c.old) result c.new }
{
    if s.len() != 244 || c.len() != 456 {
        return Err(Refusal::Length);
    }
    if !bits::none_over(s, bits::SENT) {
        return Err(Refusal::NotBits);
    }
    let mut d = [0u8; 260];
    preliminary::arrange(s, &mut d);
    coder::send_speech(&d, c)
}

// The CRC is judged of a block whose three-bit parity is good; s is handed over where it is good too.
fn judge_crc(count: u16, d: &[u8], s: &mut [u8]) -> Result<u16, Unchecked>
    requires { (Bits d.now) × (length d.now ≡ 260) × (length s.old ≡ 244) }
    ensures { Meets (checks (with_crc (Ok count) d.now) (s_of (w_of d.now)) s.old) result s.new }
{
    let mut read = [0u8; 244];
    if !preliminary::restore(d, &mut read) {
        return Err(Unchecked::BadCrc(count));
    }
    s.copy_from_slice(&read);
    Ok(count)
}

// Enhanced full rate block received: 456 bits to 244.
pub fn receive_efr(c: &[u8], s: &mut [u8]) -> Result<u16, Unchecked>
    ensures { Meets (efr_received c.now s.old) result s.new }
{
    if s.len() != 244 {
        return Err(Unchecked::Refused(Refusal::Length));
    }
    let mut d = [0u8; 260];
    let count = coder::receive_speech(c, &mut d)?;
    judge_crc(count, &d, s)
}
