// From a line to its answer.
ghost use Rattle.std.specs.Prelude.{◌≤◌, IfSome, length};

use crate::blocks::{receive, send};
use crate::framing::answer_frame;
use crate::marks::mark;
use crate::streams::Streams;
use answers::Returned;
use text::read_bits;
use words::{Answer, Argument, Asks, Verb, field, read_number, rest_of};

// The most that a line may lend.
pub const MOST: usize = 600;

// A line that uses a verb.
#[derive(Clone, Copy)]
pub struct Asked<'a> {
    verb: Verb,
    line: &'a [u8],
    ghost short: { length line.now ≤ 1000 },
}

impl<'a> Asked<'a> {
    // None where it uses none.
    fn of(line: &'a [u8]) -> Option<Self> {
        if line.len() > 1000 {
            return None;
        }
        let verb = Verb::of(line)?;
        Some(Self { verb, line })
    }

    // The verb's argument of a kind; none where it takes none.
    pub fn argument(self, kind: Argument) -> Option<&'a [u8]>
        ensures { IfSome result (λ x. length x.now ≤ 1000) }
    {
        self.verb.argument(kind, self.line)
    }
}

// The answer to a line.
pub fn reply(streams: &mut Streams, line: &[u8], written: &mut [u8; MOST]) -> Answer {
    match answer(streams, line, written) {
        Some(answer) => answer,
        None => Answer::unknown(),
    }
}

// The answer to a line; none where it asks for nothing.
fn answer(streams: &mut Streams, line: &[u8], written: &mut [u8; MOST]) -> Option<Answer> {
    if line.len() > 1000 {
        return None;
    }
    match field(line, 0) {
        b"lend" => answer_lent(streams, line, written),
        _ => answer_called(streams, Asked::of(line)?, written),
    }
}

// The answer to a line whose call writes into the buffer's beginning.
fn answer_called(streams: &mut Streams, asked: Asked, written: &mut [u8; MOST]) -> Option<Answer> {
    if let Asks::Frame(call) = asked.verb.asks {
        return answer_frame(asked, call, written);
    }
    let end = asked.verb.asks.writes();
    answer_verb(streams, asked, &mut written[..end])
}

// lend N B LINE: the answer to LINE, whose call is lent N bytes, each the digit B; they are said as they then are.
fn answer_lent(streams: &mut Streams, line: &[u8], written: &mut [u8; MOST]) -> Option<Answer> {
    let n = lent_by(field(line, 1))?;
    let byte = digit_of(field(line, 2))?;
    let asked = Asked::of(rest_of(line, 3))?;
    if asked.verb.asks.writes() == 0 {
        return None;
    }
    let lent = &mut written[..n];
    lent.fill(byte);
    let answer = answer_verb(streams, asked, lent)?;
    Some(answer.with_lent(n))
}

// How many bytes a line lends.
fn lent_by(characters: &[u8]) -> Option<usize>
    ensures { IfSome result (λ n. n ≤ 600) }
{
    let n = usize::from(read_number(characters)?);
    if n > MOST { None } else { Some(n) }
}

// The digit that is the only character.
fn digit_of(characters: &[u8]) -> Option<u8> {
    match characters {
        [digit @ b'0'..=b'9'] => Some(*digit - b'0'),
        _ => None,
    }
}

// The answer to a line that uses a verb: its number and its bits are read, and room for what the verb writes is lent.
fn answer_verb(streams: &mut Streams, asked: Asked, lent: &mut [u8]) -> Option<Answer> {
    let number = number_of(asked)?;
    let mut read = [0u8; 1000];
    let n = read_bits(bits_of(asked), &mut read);
    answer_asked(streams, asked, number, &read[..n], lent)
}

// The number among a line's arguments; 0 where the verb takes none.
fn number_of(asked: Asked) -> Option<u16> {
    match asked.argument(Argument::Number) {
        Some(characters) => read_number(characters),
        None => Some(0),
    }
}

// The bits among a line's arguments; none where the verb takes none.
fn bits_of<'a>(asked: Asked<'a>) -> &'a [u8]
    ensures { length result.now ≤ 1000 }
{
    asked.argument(Argument::Bits).unwrap_or(b"")
}

// The answer to what a line asks for, with its number and its bits.
fn answer_asked(
    streams: &mut Streams,
    asked: Asked,
    number: u16,
    read: &[u8],
    written: &mut [u8],
) -> Option<Answer> {
    let bits = written.len();
    match asked.verb.asks {
        Asks::Send(channel) => {
            let told = send(channel, number, read, written);
            Some(Answer::of_returned(Returned::from(told), bits))
        }
        Asks::Receive(channel) => {
            let returned = receive(channel, number, read, written);
            Some(Answer::of_returned(returned, bits))
        }
        Asks::Whose => Some(Answer::from(coder::whose_access(read))),
        Asks::Mark => mark(asked, read, number),
        Asks::View => Some(Answer::from(coder::view_trellis(read))),
        Asks::Stream(call) => Some(streams.call(call, number, read, written)),
        Asks::Hub(call) => Some(streams.call_hub(call, number, read, written)),
        // a frame is answered before: it asks for the whole buffer
        Asks::Frame(_) => None,
    }
}
