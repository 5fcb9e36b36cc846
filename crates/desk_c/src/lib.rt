// The library desk for C: each of its five calls, exported under the name that desk.h has, with the contract that it has there. A crate is a library for crates
// or one for C, so that this one has nothing but the exports.
#![tactic(auto)]

ghost use Rattle.std.specs.Prelude.{◌≡◌};
ghost use Rattle.answers.specs.Answers.{Meets, of_told, of_heard};
ghost use Rattle.coder.specs.Entries.{access_sent, control_sent};
ghost use Rattle.coder.specs.Received.{access_received, control_received};
ghost use Rattle.coder.specs.Whose.{access_whose};
ghost use Rattle.desk.specs.Desk.{in_one_number, with_identity};

// Access: the identity and 8 bits to 36.
#[unsafe(no_mangle)]
pub extern "C" fn desk_send_access(identity: u64, d: &[u8], e: &mut [u8]) -> u32
    ensures { Meets (in_one_number of_told (access_sent identity d.now e.old)) result e.new }
{
    desk::desk_send_access(identity, d, e)
}

// Access received: the identity and 36 bits to 8.
#[unsafe(no_mangle)]
pub extern "C" fn desk_receive_access(identity: u64, e: &[u8], d: &mut [u8]) -> u32
    ensures { Meets (in_one_number of_heard (access_received identity e.now d.old)) result d.new }
{
    desk::desk_receive_access(identity, e, d)
}

// Whose access burst it is: 36 bits are read, and nothing is written.
#[unsafe(no_mangle)]
pub extern "C" fn desk_whose_access(e: &[u8]) -> u32
    ensures { result ≡ with_identity (access_whose e.now) }
{
    desk::desk_whose_access(e)
}

// Control block: 184 bits to 456.
#[unsafe(no_mangle)]
pub extern "C" fn desk_send_control(d: &[u8], c: &mut [u8]) -> u32
    ensures { Meets (in_one_number of_told (control_sent d.now c.old)) result c.new }
{
    desk::desk_send_control(d, c)
}

// Control block received: 456 bits to 184.
#[unsafe(no_mangle)]
pub extern "C" fn desk_receive_control(c: &[u8], d: &mut [u8]) -> u32
    ensures { Meets (in_one_number of_heard (control_received c.now d.old)) result d.new }
{
    desk::desk_receive_control(c, d)
}
