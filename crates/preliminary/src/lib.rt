// The preliminary stage for enhanced full rate (02, M-103; 000, 3.1.1): from the 244 bits s to the 260 bits d of a speech block, and back with the CRC's
// verdict.
#![tactic(auto)]

ghost use Rattle.std.specs.Prelude.{◌++◌, ◌≡◌, ◌+◌, length, take, replicate};
ghost use Rattle.bits.specs.Bits.{Bits};
ghost use Rattle.order.specs.Order.{fetched};
ghost use Rattle.preliminary.specs.Stage.{crc_good, crc_p, efr_d, efr_w, s_of, w_of};
ghost use Rattle.tables.specs.Tables.{important};

// s is a slice whose length a clause has, as `arrange` takes it, which is public (docs/CONTRACTS.md): an array would be tested for once more.
// b(1)..b(65), the most important bits of s.
fn fetch_important(s: &[u8], b: &mut [u8])
    requires { (length s.now ≡ 244) × (length b.old ≡ 65) }
    ensures { b.new ≡ fetched important s.now }
{
    let table = tables::important();
    order::fetch(&table, s, b);
}

// What the CRC divides: b(1)..b(65), and eight bits behind them.
fn fill_word(s: &[u8], behind: &[u8], word: &mut [u8; 73])
    requires { (length s.now ≡ 244) × (length behind.now ≡ 8) }
    ensures { word.new ≡ fetched important s.now ++ behind.now }
{
    fetch_important(s, &mut word[0..65]);
    word[65..73].copy_from_slice(behind);
}

// p(1)..p(8): what b(1)..b(65) and eight zeros leave; so b(1)..b(65) and p(1)..p(8) leave 0.
fn put_crc(s: &[u8], p: &mut [u8])
    requires { (Bits s.now) × (length s.now ≡ 244) × (length p.old ≡ 8) }
    ensures { p.new ≡ crc_p s.now }
{
    let zeros = [0u8; 8];
    let mut word = [0u8; 73];
    fill_word(s, &zeros, &mut word);
    bits::put_digits(parity::remainder(parity::EFR, 8, &word), p);
}

// A part of s, and one of its bits twice more.
fn put_part(part: &[u8], repeated: u8, w: &mut [u8])
    requires { length w.old ≡ length part.now + 2 }
    ensures { w.new ≡ part.now ++ replicate 2 repeated }
{
    let n = part.len();
    w[..n].copy_from_slice(part);
    w[n..].fill(repeated);
}

// w(1)..w(232): s(1)..s(224), with s(70), s(120), s(173) and s(223) each twice more.
fn repeat_bits(s: &[u8], w: &mut [u8])
    requires { (length s.now ≡ 244) × (length w.old ≡ 232) }
    ensures { w.new ≡ take 232 (efr_w s.now) }
{
    put_part(&s[0..71], s[69], &mut w[0..73]);
    put_part(&s[71..121], s[119], &mut w[73..125]);
    put_part(&s[121..174], s[172], &mut w[125..180]);
    put_part(&s[174..224], s[222], &mut w[180..232]);
}

// w(1)..w(260): those, s(225)..s(244), and the CRC.
fn fill_w(s: &[u8], w: &mut [u8; 260])
    requires { (Bits s.now) × (length s.now ≡ 244) }
    ensures { w.new ≡ efr_w s.now }
{
    repeat_bits(s, &mut w[0..232]);
    w[232..252].copy_from_slice(&s[224..244]);
    put_crc(s, &mut w[252..260]);
}

// d(0)..d(259): w in the order of the table.
pub fn arrange(s: &[u8], d: &mut [u8])
    requires { (Bits s.now) × (length s.now ≡ 244) × (length d.old ≡ 260) }
    ensures { d.new ≡ efr_d s.now }
{
    let mut w = [0u8; 260];
    fill_w(s, &mut w);
    let table = tables::ordering();
    order::fetch(&table, &w, d);
}

// w out of d.
fn put_back(d: &[u8], w: &mut [u8; 260])
    requires { length d.now ≡ 260 }
    ensures { w.new ≡ w_of d.now }
{
    let table = tables::ordering();
    order::put_back(&table, d, w);
}

// s out of w: the repeated bits from their first places, their copies are not read.
fn read_s(w: &[u8; 260], s: &mut [u8])
    requires { length s.old ≡ 244 }
    ensures { s.new ≡ s_of w.now }
{
    s[0..71].copy_from_slice(&w[0..71]);
    s[71..121].copy_from_slice(&w[73..123]);
    s[121..174].copy_from_slice(&w[125..178]);
    s[174..224].copy_from_slice(&w[180..230]);
    s[224..244].copy_from_slice(&w[232..252]);
}

// Does division leave 0 of b(1)..b(65) and w(253)..w(260)?
fn is_good(s: &[u8], w: &[u8; 260]) -> bool
    requires { (Bits w.now) × (s.now ≡ s_of w.now) }
    ensures { result ≡ crc_good w.now }
{
    let mut word = [0u8; 73];
    fill_word(s, &w[252..260], &mut word);
    parity::remainder(parity::EFR, 8, &word) == 0
}

// s out of d, and is the CRC good?
pub fn restore(d: &[u8], s: &mut [u8]) -> bool
    requires { (Bits d.now) × (length d.now ≡ 260) × (length s.old ≡ 244) }
    ensures { (result ≡ crc_good (w_of d.now)) × (s.new ≡ s_of (w_of d.now)) }
{
    let mut w = [0u8; 260];
    put_back(d, &mut w);
    read_s(&w, s);
    is_good(s, &w)
}
