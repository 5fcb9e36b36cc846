// What host/speed counts of the entries that the program speed does not call: a line names an entry, and how many times it is called, up to 9. The number that the last call told is
// written.
// It reads its line as speed does. That is no plainer in one place: a crate for both would have two callers, and more text than the twelve lines that it saves.
#![tactic(auto)]

mod framed;

use text::{digit, put_number, take_line, write_line};

fn main(rt: HostRuntime) {
    let mut chunk = [0u8; 4096];
    let mut line = [0u8; 80];
    let taken = take_line(&rt, &mut rt.stdin(), &mut chunk, 0..0, &mut line);
    let kept = taken.kept;
    run(&rt, &line[..kept]);
}

// NAME CALLS
fn run(rt: &HostRuntime, line: &[u8]) {
    if line.len() < 3 {
        return;
    }
    let end = line.len() - 2;
    let told = call(&line[..end], digit(line[end + 1]));
    let mut out = [0u8; 40];
    let n = put_number(&mut out, 0, u64::from(told));
    write_line(rt, &mut rt.stdout(), &mut out, n);
}

// The entry of a name, called so many times.
fn call(name: &[u8], calls: u8) -> u32 {
    match name {
        b"frame-write" => framed::write(calls),
        b"frame-read" => framed::read(calls),
        _ => 65535,
    }
}
