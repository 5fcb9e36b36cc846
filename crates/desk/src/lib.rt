// The face for C: access and control block entries in both directions, and whose request an access burst is, on numbers and byte slices. Every call is
// coder's, and its answer is one number, since C is given no Result: 65,536 times 01's number, 0 where none is given, and the count in the lower half; above
// both the identity that is named.
#![tactic(auto, using(crate::proofs::laws::Desk::in_one_number_lem))]

ghost use Rattle.std.specs.Prelude.{◌≡◌};
ghost use Rattle.answers.specs.Answers.{Meets, of_told, of_heard};
ghost use Rattle.coder.specs.Entries.{access_sent, control_sent};
ghost use Rattle.coder.specs.Received.{access_received, control_received};
ghost use Rattle.coder.specs.Whose.{access_whose};
ghost use Rattle.desk.specs.Desk.{one_number, in_one_number, with_identity};

use answers::Returned;

// What is returned, as one number.
#[tactic(auto, unfolding(crate::specs::Desk::one_number))]
fn one_number(returned: Returned) -> u32
    ensures { result ≡ one_number returned }
{
    65536 * u32::from(returned.number.unwrap_or(0)) + u32::from(returned.count.unwrap_or(0))
}

// Access: the identity and 8 bits to 36.
#[unsafe(no_mangle)]
pub extern "C" fn desk_send_access(identity: u64, d: &[u8], e: &mut [u8]) -> u32
    ensures { Meets (in_one_number of_told (access_sent identity d.now e.old)) result e.new }
{
    one_number(coder::send_access(identity, d, e).into())
}

// Access received: the identity and 36 bits to 8.
#[unsafe(no_mangle)]
pub extern "C" fn desk_receive_access(identity: u64, e: &[u8], d: &mut [u8]) -> u32
    ensures { Meets (in_one_number of_heard (access_received identity e.now d.old)) result d.new }
{
    one_number(coder::receive_access(identity, e, d).into())
}

// Whose access burst it is: 36 bits are read, and nothing is written.
#[unsafe(no_mangle)]
pub extern "C" fn desk_whose_access(e: &[u8]) -> u32
    ensures { result ≡ with_identity (access_whose e.now) }
{
    match coder::whose_access(e) {
        Ok(named) => 16777216 * u32::from(named.identity) + u32::from(named.count),
        Err(why) => 65536 * u32::from(u8::from(why)),
    }
}

// Control block: 184 bits to 456.
#[unsafe(no_mangle)]
pub extern "C" fn desk_send_control(d: &[u8], c: &mut [u8]) -> u32
    ensures { Meets (in_one_number of_told (control_sent d.now c.old)) result c.new }
{
    one_number(coder::send_control(d, c).into())
}

// Control block received: 456 bits to 184.
#[unsafe(no_mangle)]
pub extern "C" fn desk_receive_control(c: &[u8], d: &mut [u8]) -> u32
    ensures { Meets (in_one_number of_heard (control_received c.now d.old)) result d.new }
{
    one_number(coder::receive_control(c, d).into())
}
