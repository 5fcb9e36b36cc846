// Frames from the transcoder (02, M-113): full rate speech in the 40 octets of GSM 08.60. A frame is written from C1 to C21 and the 260 bits d, and read again.
#![tactic(auto)]

mod layout;
mod octets;

ghost use Rattle.std.specs.Prelude.{◌++◌, ◌≡◌, ◌≤◌, length, take, drop};
ghost use Rattle.answers.specs.Answers.{Meets};
ghost use Rattle.bits.specs.Bits.{Bits, pick, ones};
ghost use Rattle.frames.specs.Answers.{FrameMeets, frame_read, frame_written, sized};
ghost use Rattle.frames.specs.Frame.{data_bits, frame, is_speech};
ghost use Rattle.frames.specs.laws.Layout.{carries};
ghost use Rattle.order.specs.Order.{fetched};
ghost use Rattle.tables.specs.FullRate.{importance};

use answers::Refusal;

// C1 to C5 of full rate speech (001, 3.5.1.1.1).
const UPLINK: [u8; 5] = [0, 0, 0, 1, 0];

const DOWNLINK: [u8; 5] = [1, 1, 1, 0, 0];

// Are C1 to C5 a full rate speech type?
fn is_speech(control: &[u8]) -> bool
    requires { 5 ≤ length control.now }
    ensures { result ≡ is_speech control.now }
{
    control.starts_with(&UPLINK) || control.starts_with(&DOWNLINK)
}

// C16 to C21, and T1 to T4, which are 1.
fn put_end(control: &[u8], end: &mut [u8])
    requires { (length control.now ≡ 6) × (length end.old ≡ 10) }
    ensures { end.new ≡ control.now ++ ones 4 }
{
    end[..6].copy_from_slice(control);
    end[6..].fill(1);
}

// d is a slice whose length a clause has, here and below: write_frame answers every length and tests three of them at once, and arrays would take a test each.
// D1 to D260, w, out of d, by table 2.
fn put_data(d: &[u8], w: &mut [u8])
    requires { (length d.now ≡ 260) × (length w.old ≡ 260) }
    ensures { w.new ≡ data_bits d.now }
{
    let table = tables::importance();
    order::put_back(&table, d, w);
}

// The bits that a frame carries.
fn carry(c: &[u8], d: &[u8], carried: &mut [u8])
    requires { (length c.now ≡ 21) × (length d.now ≡ 260) × (length carried.old ≡ 285) }
    ensures { carried.new ≡ carries c.now (data_bits d.now) }
{
    carried[..15].copy_from_slice(&c[..15]);
    put_data(d, &mut carried[15..275]);
    put_end(&c[15..21], &mut carried[275..285]);
}

// The frame that carries c and d.
fn fill_frame(c: &[u8], d: &[u8], octets: &mut [u8])
    requires { (length c.now ≡ 21) × (length d.now ≡ 260) × (Bits c.now) × (Bits d.now) × (length octets.old ≡ 40) }
    ensures { octets.new ≡ frame c.now d.now }
{
    let mut carried = [0u8; 285];
    carry(c, d, &mut carried);
    let mut frame = [0u8; 320];
    layout::lay_out(&carried, &mut frame);
    octets::pack(&frame, octets);
}

// Refused, unless there are 21 control bits, 260 bits of speech and 40 octets.
fn check_sizes(c: &[u8], d: &[u8], octets: &[u8]) -> Result<(), Refusal>
    ensures { result ≡ pick (sized c.now d.now octets.now) (Ok tt) (Err Refusal.Length) }
{
    if c.len() == 21 && d.len() == 260 && octets.len() == 40 {
        Ok(())
    } else {
        Err(Refusal::Length)
    }
}

// Writes a frame: 21 control bits and the 260 bits d to 40 octets.
pub fn write_frame(c: &[u8], d: &[u8], octets: &mut [u8]) -> Result<(), Refusal>
    ensures { Meets (frame_written c.now d.now octets.old) result octets.new }
{
    check_sizes(c, d, octets)?;
    if !bits::none_over(c, bits::SENT) || !bits::none_over(d, bits::SENT) {
        return Err(Refusal::NotBits);
    }
    if !is_speech(c) {
        return Err(Refusal::FrameType);
    }
    fill_frame(c, d, octets);
    Ok(())
}

// C1 to C21 and d, out of the bits that a frame carries.
fn hand_over(carried: &[u8], c: &mut [u8], d: &mut [u8])
    requires { (length carried.now ≡ 285) × (length c.old ≡ 21) × (length d.old ≡ 260) }
    ensures { (c.new ≡ take 15 carried.now ++ take 6 (drop 275 carried.now)) × (d.new ≡ fetched importance (take 260 (drop 15 carried.now))) }
{
    c[..15].copy_from_slice(&carried[..15]);
    c[15..].copy_from_slice(&carried[275..281]);
    let table = tables::importance();
    order::fetch(&table, &carried[15..275], d);
}

// Reads a frame: 40 octets to 21 control bits and the 260 bits d.
pub fn read_frame(octets: &[u8], c: &mut [u8], d: &mut [u8]) -> Result<(), Refusal>
    ensures { FrameMeets (frame_read octets.now c.old d.old) result c.new d.new }
{
    check_sizes(c, d, octets)?;
    let mut frame = [0u8; 320];
    octets::unpack(octets, &mut frame);
    if !layout::is_framed(&frame) {
        return Err(Refusal::FixedBit);
    }
    let mut carried = [0u8; 285];
    layout::take_out(&frame, &mut carried);
    if !is_speech(&carried) {
        return Err(Refusal::FrameType);
    }
    hand_over(&carried, c, d);
    Ok(())
}
