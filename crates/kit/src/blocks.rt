// Blocks, in each direction: the entry of each channel.
use answers::{Refusal, Returned};
use words::Channel;

// Two matches on the channel: its kinds are closed, and a table of functions would say no more.
// Codes the bits d for a channel; the number is the identity that an access burst is for.
pub fn send(channel: Channel, number: u16, d: &[u8], coded: &mut [u8]) -> Result<(), Refusal> {
    match channel {
        Channel::Speech => coder::send_speech(d, coded),
        Channel::Control => coder::send_control(d, coded),
        Channel::Sacch => coder::send_sacch(d, coded),
        Channel::Access => coder::send_access(u64::from(number), d, coded),
        Channel::Sch => coder::send_sch(d, coded),
        Channel::Efr => efr::send_efr(d, coded),
    }
}

// Decodes what is received on a channel, and gives what is returned of it; the number is the identity of the receiver of an access burst.
pub fn receive(channel: Channel, number: u16, received: &[u8], d: &mut [u8]) -> Returned {
    match channel {
        Channel::Speech => Returned::from(coder::receive_speech(received, d)),
        Channel::Control => Returned::from(coder::receive_control(received, d)),
        Channel::Sacch => Returned::from(coder::receive_sacch(received, d)),
        Channel::Access => Returned::from(coder::receive_access(u64::from(number), received, d)),
        Channel::Sch => Returned::from(coder::receive_sch(received, d)),
        Channel::Efr => efr::of_checked(efr::receive_efr(received, d)),
    }
}
