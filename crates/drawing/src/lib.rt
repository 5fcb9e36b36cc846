// The control parity as the workbook draws it: a register of forty cells with feedback taps (02, M-104; docs/DRAWING.md has the drawing).
#![tactic(auto)]

ghost use Rattle.std.specs.Prelude.{true, ◌≡◌, ◌-◌, ◌≤◌, eqb, length, take, drop};
ghost use Rattle.bits.specs.Bits.{Bits, both, zeros};
ghost use Rattle.parity.specs.Division.{parity, control_g};
ghost use Rattle.drawing.specs.Drawing.{control_taps, clocked, clocked_in, read_off};

// One clock of the register. The bit is added to what leaves cell 39; the cells move up by one; the sum enters at the taps. The forty lines are the
// cells, from cell 0 up, and say what each then holds.
fn clock(cells: [u8; 40], bit: u8) -> [u8; 40]
    requires { (Bits cells) × (bit ≤ 1) }
    ensures { result ≡ clocked control_taps cells bit }
{
    let leaves = cells[39];
    let sum = bit ^ leaves;
    [
        sum, // tap into cell 0
        cells[0],
        cells[1],
        cells[2] ^ sum, // tap into cell 3
        cells[3],
        cells[4],
        cells[5],
        cells[6],
        cells[7],
        cells[8],
        cells[9],
        cells[10],
        cells[11],
        cells[12],
        cells[13],
        cells[14],
        cells[15],
        cells[16] ^ sum, // tap into cell 17
        cells[17],
        cells[18],
        cells[19],
        cells[20],
        cells[21],
        cells[22] ^ sum, // tap into cell 23
        cells[23],
        cells[24],
        cells[25] ^ sum, // tap into cell 26
        cells[26],
        cells[27],
        cells[28],
        cells[29],
        cells[30],
        cells[31],
        cells[32],
        cells[33],
        cells[34],
        cells[35],
        cells[36],
        cells[37],
        cells[38],
    ]
}

// The cells after eight clocks: the bits of one octet enter, one at a time.
fn clock_octet(cells: [u8; 40], octet: &[u8; 8]) -> [u8; 40]
    requires { (Bits cells) × (Bits octet.now) }
    ensures { result ≡ clocked_in control_taps cells octet.now }
{
    let mut held = cells;
    for bit in octet {
        let next = clock(held, *bit);
        held = next;
    }
    held
}

// The cells after the 184 clocks of a control block, 23 octets; before the first bit all hold 0.
fn clock_block(d: &[u8]) -> [u8; 40]
    requires { (Bits d.now) × (length d.now ≡ 184) }
    ensures { result ≡ clocked_in control_taps (zeros 40) d.now }
{
    let (octets, _) = d.as_chunks::<8>();
    let mut cells = [0u8; 40];
    for octet in octets {
        let next = clock_octet(cells, octet);
        cells = next;
    }
    cells
}

// The other bit.
fn complement(bit: u8) -> u8
    requires { bit ≤ 1 }
    ensures { result ≡ 1 - bit }
{
    1 ^ bit
}

// What is read off the cells: the complement of each, cell 39 first.
fn read_off(cells: [u8; 40], p: &mut [u8])
    requires { (Bits cells) × (length p.old ≡ 40) }
    ensures { p.new ≡ read_off cells }
{
    for k in 0..40 {
        p[k] = complement(cells[39 - k]);
    }
}

// The forty parity bits of a control block's 184.
pub fn put_control(d: &[u8], p: &mut [u8])
    requires { (Bits d.now) × (length d.now ≡ 184) × (length p.old ≡ 40) }
    ensures { p.new ≡ parity control_g d.now }
{
    let cells = clock_block(d);
    read_off(cells, p);
}

// Are the last forty bits of w the parity bits of the 184 before them? They are worked out again, and compared.
pub fn is_control(w: &[u8]) -> bool
    requires { (Bits w.now) × (length w.now ≡ 224) }
    ensures { (result ≡ true → drop 184 w.now ≡ parity control_g (take 184 w.now)) × (drop 184 w.now ≡ parity control_g (take 184 w.now) → result ≡ true) }
{
    let mut again = [0u8; 40];
    put_control(&w[0..184], &mut again);
    again.as_slice() == &w[184..224]
}
