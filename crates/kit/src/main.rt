// The kit by hand: each line of the input is a word and its arguments, and is answered by one line.
#![tactic(auto)]

ghost use Rattle.std.specs.Prelude.{◌≤◌, length};

mod blocks;
mod framing;
mod marks;
mod reply;
mod streams;

use reply::reply;
use streams::Streams;
use text::{take_line, without_mark, without_return, write_line};
use words::{put_answer, put_said, question_of};

fn main(rt: HostRuntime) {
    let mut chunk = [0u8; 4096];
    // a line may have 1,000 bytes, and before them a byte order mark and behind them a carriage return; one byte more, so that a longer line is
    // seen to be longer
    let mut line = [0u8; 1005];
    answer_all(&rt, &mut chunk, &mut line);
}

// Answers each line as it comes, while the answers can be written; the turns are counted, since nothing says that the input ends.
fn answer_all(rt: &HostRuntime, chunk: &mut [u8], line: &mut [u8]) {
    let mut input = rt.stdin();
    let mut rest = 0..0;
    let mut streams = Streams::fresh();
    for turn in 0..u64::MAX {
        let taken = take_line(rt, &mut input, chunk, rest, line);
        let kept = taken.kept;
        let more = taken.more;
        let written = answer_line(rt, &mut streams, &line[..kept], turn == 0, more);
        if !written || !more {
            return;
        }
        rest = taken.rest;
    }
}

// Answers a line that was taken, and says whether the answer could be written. A last one without its newline counts if it is not empty.
fn answer_line(
    rt: &HostRuntime,
    streams: &mut Streams,
    taken: &[u8],
    first: bool,
    ended: bool,
) -> bool {
    let line = plain(taken, first, ended);
    if ended || line.len() > 0 {
        return write_answer(rt, streams, line);
    }
    true
}

// A line without what comes with a text from Windows: the mark before the first line, and the carriage return before a newline.
fn plain(line: &[u8], first: bool, ended: bool) -> &[u8] {
    let unmarked = if first { without_mark(line) } else { line };
    if ended {
        without_return(unmarked)
    } else {
        unmarked
    }
}

// Writes the answer to a line.
fn write_answer(rt: &HostRuntime, streams: &mut Streams, line: &[u8]) -> bool {
    let mut out = [0u8; 1001];
    let n = put_reply(&mut out, streams, line);
    write_line(rt, &mut rt.stdout(), &mut out, n)
}

// Puts the answer to a line into `out`, what the kit says of itself or what comes of a call, and gives the place after it.
fn put_reply(out: &mut [u8], streams: &mut Streams, line: &[u8]) -> usize
    requires { 1000 ≤ length out.old }
    ensures { result ≤ 1000 }
{
    if let Some(question) = question_of(line) {
        return put_said(out, question);
    }
    // as long as the longest that a line may lend
    let mut buffer = [0u8; 600];
    let answer = reply(streams, line, &mut buffer);
    put_answer(out, answer, &buffer)
}
