// The access sheet: each line of the input is a request, two digits and eight bits, and is answered by the 36 bits to send.
#![tactic(auto)]

mod sheet;

use sheet::answer;
use text::{take_line, write_line};

fn main(rt: HostRuntime) {
    let mut chunk = [0u8; 4096];
    // one byte more than a request has, so that a longer line is seen to be longer
    let mut line = [0u8; 12];
    answer_all(&rt, &mut chunk, &mut line);
}

// The kit has this loop too, with streams that go from line to line: one loop for both, over a closure, could promise nothing of what is answered.
// Answers each line as it comes, while the answers can be written; the turns are counted, since nothing says that the input ends.
fn answer_all(rt: &HostRuntime, chunk: &mut [u8], line: &mut [u8]) {
    let mut input = rt.stdin();
    let mut rest = 0..0;
    for _ in 0..u64::MAX {
        let taken = take_line(rt, &mut input, chunk, rest, line);
        let kept = taken.kept;
        let more = taken.more;
        let written = answer_line(rt, &line[..kept], more);
        if !written || !more {
            return;
        }
        rest = taken.rest;
    }
}

// Answers a line, and says whether the answer could be written. A last line without its newline counts if it is not empty.
fn answer_line(rt: &HostRuntime, line: &[u8], ended: bool) -> bool {
    if ended || line.len() > 0 {
        return write_answer(rt, line);
    }
    true
}

// Writes the answer to a line.
fn write_answer(rt: &HostRuntime, line: &[u8]) -> bool {
    let mut out = [0u8; 40];
    let n = answer(line, &mut out);
    write_line(rt, &mut rt.stdout(), &mut out, n)
}
