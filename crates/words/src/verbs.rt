// The table of verbs, and the verb of a line.
ghost use Rattle.std.specs.Prelude.{◌≡◌, ◌==◌, ◌≤◌, IfSome, count_by, length};

use crate::fields::{arguments, field};
use Argument::{Bits, Block, Number, Octets, Speech, Word};

// A channel: its blocks are coded to be sent, and decoded as they are received.
#[derive(Clone, Copy)]
pub enum Channel {
    Speech,
    Control,
    Sacch,
    Access,
    Sch,
    Efr,
}

// What is asked of the streams.
#[derive(Clone, Copy)]
pub enum Call {
    Send,
    End,
    Take,
    Totals,
    Fresh,
}

// What is asked of the hub.
#[derive(Clone, Copy)]
pub enum HubCall {
    Enrol,
    Remove,
    Hear,
}

// What is asked of a frame: that it is written, or read.
#[derive(Clone, Copy)]
pub enum FrameCall {
    Write,
    Read,
}

// What a line asks for.
#[derive(Clone, Copy)]
pub enum Asks {
    Send(Channel),
    Receive(Channel),
    Whose,
    Mark,
    View,
    Stream(Call),
    Hub(HubCall),
    Frame(FrameCall),
}

// An argument of a line.
#[derive(Clone, Copy, PartialEq)]
pub enum Argument {
    Number,
    Bits,
    // of a mark, its channel and its block
    Word,
    Block,
    // of a frame
    Speech,
    Octets,
}

// Every verb: its word, its arguments in order, and what it asks for.
// One that may have more arguments or fewer has a row for each: `trellis` alone views nothing.
static VERBS: [(&[u8], &[Argument], Asks); 26] = [
    (b"speech", &[Bits], Asks::Send(Channel::Speech)),
    (b"control", &[Bits], Asks::Send(Channel::Control)),
    (b"sacch", &[Bits], Asks::Send(Channel::Sacch)),
    (b"access", &[Number, Bits], Asks::Send(Channel::Access)),
    (b"sch", &[Bits], Asks::Send(Channel::Sch)),
    (b"efr", &[Bits], Asks::Send(Channel::Efr)),
    (b"speech?", &[Bits], Asks::Receive(Channel::Speech)),
    (b"control?", &[Bits], Asks::Receive(Channel::Control)),
    (b"sacch?", &[Bits], Asks::Receive(Channel::Sacch)),
    (b"access?", &[Number, Bits], Asks::Receive(Channel::Access)),
    (b"sch?", &[Bits], Asks::Receive(Channel::Sch)),
    (b"efr?", &[Bits], Asks::Receive(Channel::Efr)),
    (b"whose", &[Bits], Asks::Whose),
    (b"mark", &[Word, Bits, Block, Number], Asks::Mark),
    (b"trellis", &[Bits], Asks::View),
    (b"trellis", &[], Asks::View),
    (b"send", &[Bits], Asks::Stream(Call::Send)),
    (b"end", &[], Asks::Stream(Call::End)),
    (b"take", &[Number, Bits], Asks::Stream(Call::Take)),
    (b"totals", &[], Asks::Stream(Call::Totals)),
    (b"enrol", &[Number], Asks::Hub(HubCall::Enrol)),
    (b"remove", &[Number], Asks::Hub(HubCall::Remove)),
    (b"hear", &[Bits], Asks::Hub(HubCall::Hear)),
    (b"frame", &[Bits, Speech], Asks::Frame(FrameCall::Write)),
    (b"frame?", &[Octets], Asks::Frame(FrameCall::Read)),
    (b"fresh", &[], Asks::Stream(Call::Fresh)),
];

// The verb of a line: what it asks for, and its arguments in order.
#[derive(Clone, Copy)]
pub struct Verb {
    pub asks: Asks,
    takes: &'static [Argument],
}

impl Verb {
    // The verb whose word stands first in a line and that takes as many arguments; none where there is none.
    pub fn of(line: &[u8]) -> Option<Self>
        ensures { IfSome result (λ verb. length verb.takes.now ≡ count_by (λ byte. byte == 32) line.now) }
    {
        let first = field(line, 0);
        let count = arguments(line);
        let (_, takes, asks) = VERBS
            .iter()
            .find(|(word, takes, _)| *word == first && takes.len() == count)?;
        Some(Self { asks: *asks, takes })
    }

    // Its argument of a kind, out of a line that uses it; none where it takes none.
    pub fn argument(self, kind: Argument, line: &[u8]) -> Option<&[u8]>
        ensures { IfSome result (λ x. length x.now ≤ length line.now) }
    {
        let place = self.takes.iter().position(|taken| *taken == kind)?;
        Some(field(line, place + 1))
    }
}

impl Asks {
    // How many bytes are written for it into a buffer that a line may lend.
    pub fn writes(self) -> usize
        ensures { result ≤ 464 }
    {
        match self {
            Self::Send(channel) => channel.coded(),
            Self::Receive(channel) => channel.bits(),
            Self::Stream(Call::Send | Call::End) => 464,
            Self::Stream(Call::Take) => 260,
            Self::Hub(HubCall::Hear) => 8,
            _ => 0,
        }
    }
}

impl Channel {
    // How many coded bits a block has.
    fn coded(self) -> usize
        ensures { result ≤ 464 }
    {
        match self {
            Self::Speech | Self::Control | Self::Efr => 456,
            Self::Sacch => 464,
            Self::Access => 36,
            Self::Sch => 78,
        }
    }

    // How many bits it has that are coded.
    fn bits(self) -> usize
        ensures { result ≤ 464 }
    {
        match self {
            Self::Speech => 260,
            Self::Control | Self::Sacch => 184,
            Self::Access => 8,
            Self::Sch => 25,
            Self::Efr => 244,
        }
    }
}
