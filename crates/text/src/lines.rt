// Lines of standard input, in whatever chunks it comes, and lines of standard output.
ghost use Rattle.std.specs.Io.KnownBytes.{Appends};
ghost use Rattle.std.specs.Prelude.{◌+◌, ◌≤◌, ◌<◌, [], ◌∷◌, ◌≡◌, length, take, true};
ghost use Rattle.text.specs.Text.{put_at};
ghost use Rattle.text.specs.Within.{Within};

use crate::put::put_byte;
use crate::read::find;
use std::io::{Eprint, ErrorKind, Read, Write};
use std::ops::Range;

// A line that was taken from the input.
#[derive(Drop)]
pub struct Taken {
    // how many of its bytes are kept
    pub kept: usize,
    // where the bytes of the chunk stand that are not yet taken
    pub rest: Range<usize>,
    // whether a newline ended the line; if not, the input did
    pub more: bool,
}

// Takes the next line and keeps what there is room for: a full line is one that is too long.
pub fn take_line<R: Read>(
    rt: &impl Eprint,
    input: &mut R,
    chunk: &mut [u8],
    rest: Range<usize>,
    line: &mut [u8],
) -> Taken
    requires { Within rest chunk.old }
    ensures { (result.kept ≤ length line.new) × Within result.rest chunk.new }
{
    let mut taken = take_part(chunk, rest, line, 0);
    // nothing says that the input ends, so the turns have an end that no run comes to
    for _ in 0..u64::MAX {
        if taken.more {
            return taken;
        }
        let next = next_chunk(rt, input, chunk);
        if next.end == 0 {
            return taken;
        }
        taken = take_part(chunk, next, line, taken.kept);
    }
    taken
}

// Takes from the chunk up to the next newline, or all that is left of it.
fn take_part(chunk: &[u8], rest: Range<usize>, line: &mut [u8], kept: usize) -> Taken
    requires { Within rest chunk.now × (kept ≤ length line.old) }
    ensures { (result.kept ≤ length line.new) × Within result.rest chunk.now }
{
    let Range { start, end } = rest;
    let stop = find(&chunk[..end], start, b'\n');
    let kept = keep(line, kept, &chunk[start..stop]);
    if stop < end {
        Taken {
            kept,
            rest: stop + 1..end,
            more: true,
        }
    } else {
        Taken {
            kept,
            rest: end..end,
            more: false,
        }
    }
}

// Reads the next chunk: nothing at the end of the input, or where it cannot be read, which is then said.
fn next_chunk<R: Read>(rt: &impl Eprint, input: &mut R, chunk: &mut [u8]) -> Range<usize>
    ensures { Within result chunk.new }
{
    match input.read(chunk) {
        Ok(end) => 0..end,
        Err(_) => {
            // nobody is left to hear of it where this cannot be said
            let _ = eprintln!(rt; "the input could not be read");
            0..0
        }
    }
}

// Appends to the line what there is room for.
fn keep(line: &mut [u8], kept: usize, more: &[u8]) -> usize
    requires { kept ≤ length line.old }
    ensures { result ≤ length line.new }
{
    let n = more.len().min(line.len() - kept);
    line[kept..kept + n].copy_from_slice(&more[..n]);
    kept + n
}

// Writes the first n bytes of `out` and a newline, by one call, so that they are seen at once; false where they cannot be written, which is then
// said.
pub fn write_line<W: Write>(rt: &impl Eprint, output: &mut W, out: &mut [u8], n: usize) -> bool
    requires { n < length out.old }
    ensures left { out.new ≡ put_at out.old n (10 ∷ []) }
    ensures written { result ≡ true → Appends (W.contents output.old) (W.contents output.new) (take (n + 1) out.new) }
{
    let end = put_byte(out, n, b'\n');
    match output.write_all(&out[0..end]) {
        Ok(()) => true,
        Err(error) => {
            // a pipe that nobody reads any more is no failure, and nobody is left to hear of another where it cannot be said
            if error.kind() != ErrorKind::BrokenPipe {
                let _ = eprintln!(rt; "an answer could not be written");
            }
            false
        }
    }
}
