// Frames from the transcoder: the entry that writes one, and the entry that reads one.
ghost use Rattle.std.specs.Prelude.{◌≤◌, length};

use crate::reply::{Asked, MOST};
use text::{is_hex, read_bits, read_octets};
use words::{Answer, Argument, Form, FrameCall};

// The answer to a line that asks for a frame, or for what a frame carries; none where it asks for nothing.
pub fn answer_frame(asked: Asked, call: FrameCall, written: &mut [u8; MOST]) -> Option<Answer> {
    match call {
        FrameCall::Write => {
            let control = asked.argument(Argument::Bits)?;
            let speech = asked.argument(Argument::Speech)?;
            Some(write(control, speech, written))
        }
        FrameCall::Read => read(asked.argument(Argument::Octets)?, written),
    }
}

// frame C D
fn write(control: &[u8], speech: &[u8], written: &mut [u8; MOST]) -> Answer
    requires { (length control.now ≤ 1000) × (length speech.now ≤ 1000) }
{
    let mut c = [0u8; 1000];
    let m = read_bits(control, &mut c);
    let mut d = [0u8; 1000];
    let n = read_bits(speech, &mut d);
    let told = frames::write_frame(&c[..m], &d[..n], &mut written[0..40]);
    Answer::of_frame(told, 40, Form::Octets)
}

// frame? HEX
fn read(hex: &[u8], written: &mut [u8; MOST]) -> Option<Answer>
    requires { length hex.now ≤ 1000 }
{
    if !is_hex(hex) {
        return None;
    }
    let mut octets = [0u8; 500];
    let n = read_octets(hex, &mut octets);
    Some(carried(&octets[..n], written))
}

// What the frame carries, which then stands in `written`, C first.
fn carried(octets: &[u8], written: &mut [u8; MOST]) -> Answer {
    let (c, rest) = written.split_at_mut(21);
    let told = frames::read_frame(octets, c, &mut rest[0..260]);
    Answer::of_frame(told, 281, Form::Parted)
}
