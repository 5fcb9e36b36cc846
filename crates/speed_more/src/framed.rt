// Frames, written and read. Between the calls a bit is altered, so that each has something else to do.
use answers::Refusal;

// speed has a trait for this, over seven types; here is one.
// What a call told: 0, or the number of the refusal.
fn number(told: Result<(), Refusal>) -> u32 {
    match told {
        Ok(()) => 0,
        Err(why) => u32::from(u8::from(why)),
    }
}

// C1 to C21 of the uplink.
const UPLINK: [u8; 21] = [
    0, 0, 0, 1, 0, 0, 0, 0, 0, 0, 0, 0, 0, 0, 0, 0, 0, 0, 0, 0, 0,
];

// d begins with a one. The last octet is looked at, so that LLVM leaves nothing out.
pub fn write(calls: u8) -> u32 {
    let c = UPLINK;
    let mut d = [0u8; 260];
    d[5] = 1;
    let mut octets = [0u8; 40];
    let mut told = 0;
    for _ in 0..calls {
        told = number(frames::write_frame(&c, &d, &mut octets));
        d[7] ^= 1;
    }
    if octets[39] == 15 { told } else { 65535 }
}

// Such a frame, of which T4 is altered. The last bit of d is looked at.
pub fn read(calls: u8) -> u32 {
    let mut c = UPLINK;
    let mut d = [0u8; 260];
    d[259] = 1;
    let mut octets = [0u8; 40];
    let _ = frames::write_frame(&c, &d, &mut octets);
    d[259] = 0;
    let mut told = 0;
    for _ in 0..calls {
        told = number(frames::read_frame(&octets, &mut c, &mut d));
        octets[39] ^= 1;
    }
    if d[259] == 1 { told } else { 65535 }
}
