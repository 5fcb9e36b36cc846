// What host/speed counts: a line names an entry, and how many times it is called, up to 9; of the takes, how many bursts, up to 8. The number
// that the last call told is written; what an entry must tell is tested elsewhere.
#![tactic(auto)]

mod calls;
mod hubs;
mod marked;
mod named;
mod streams;
mod told;

use calls::{decode, encode};
use marked::mark;
use marking::Block;
use streams::{send, take};
use text::{digit, put_number, take_line, write_line};

fn main(rt: HostRuntime) {
    let mut chunk = [0u8; 4096];
    let mut line = [0u8; 80];
    let taken = take_line(&rt, &mut rt.stdin(), &mut chunk, 0..0, &mut line);
    let kept = taken.kept;
    run(&rt, &line[0..kept]);
}

// NAME CALLS
fn run(rt: &HostRuntime, line: &[u8]) {
    if line.len() < 3 {
        return;
    }
    let end = line.len() - 2;
    let calls = digit(line[end + 1]);
    let told = call(&line[0..end], calls);
    let mut out = [0u8; 40];
    let n = put_number(&mut out, 0, told as u64);
    write_line(rt, &mut rt.stdout(), &mut out, n);
}

// The entry of a name, called so many times; 65535 is no entry's.
fn call(name: &[u8], calls: u8) -> u32 {
    match name {
        b"speech-encode" => encode::<260, 456, _, _>(calls, coder::send_speech),
        b"speech-decode" => decode::<260, 456, _, _, _, _>(
            calls,
            coder::send_speech,
            coder::receive_speech,
        ),
        b"control-encode" => encode::<184, 456, _, _>(calls, |d, c| desk::desk_send_control(d, c)),
        b"control-decode" => decode::<184, 456, _, _, _, _>(
            calls,
            |d, c| desk::desk_send_control(d, c),
            coder::receive_control,
        ),
        b"sacch-encode" => encode::<184, 464, _, _>(calls, coder::send_sacch),
        b"sacch-decode" => decode::<184, 464, _, _, _, _>(
            calls,
            coder::send_sacch,
            coder::receive_sacch,
        ),
        b"access-encode" => encode::<8, 36, _, _>(calls, |d, e| desk::desk_send_access(7, d, e)),
        b"access-decode" => decode::<8, 36, _, _, _, _>(
            calls,
            |d, e| desk::desk_send_access(7, d, e),
            |e, d| desk::desk_receive_access(7, e, d),
        ),
        b"access-whose" => named::received(calls, coder::whose_access),
        b"access-any" => named::any_access(calls),
        b"sch-encode" => encode::<25, 78, _, _>(calls, coder::send_sch),
        b"sch-decode" => decode::<25, 78, _, _, _, _>(calls, coder::send_sch, coder::receive_sch),
        b"efr-encode" => encode::<244, 456, _, _>(calls, efr::send_efr),
        b"efr-decode" => decode::<244, 456, _, _, _, _>(calls, efr::send_efr, efr::receive_efr),
        b"mark-speech" => mark::<456, 189>(calls, Block::Speech),
        b"mark-control" => mark::<456, 228>(calls, Block::Control),
        b"mark-access" => mark::<36, 18>(calls, Block::Access),
        b"mark-sch" => mark::<78, 39>(calls, Block::Sch),
        b"hub-enrol" => hubs::enrol(calls),
        b"hub-remove" => hubs::remove(calls),
        // where the identity stands that a burst is for
        b"hub-hear-first" => hubs::hear(7, calls),
        b"hub-hear-last" => hubs::hear(42, calls),
        b"hub-hear-none" => hubs::hear(8, calls),
        b"send-speech" => send::<260>(calls),
        b"send-facch" => send::<184>(calls),
        b"take-speech" => take::<260>(calls, 0, false),
        b"take-facch" => take::<184>(calls, 1, false),
        b"take-tie" => take::<260>(calls, 1, false),
        b"take-charted" => take::<260>(calls, 0, true),
        _ => 65535,
    }
}
