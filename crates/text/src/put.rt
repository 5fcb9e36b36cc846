// Small writers: each puts something into `out` from place `n` on, and gives the place after it.
// Bytes are put, and no Display is written: each byte is promised (put_at), and what write! leaves in a fixed buffer it may refuse to write.
// Tried: a struct of the two is no plainer, since each function on it would promise besides that the slice it holds and its length stay; and an ArrayVec is one capacity, where put_at is promised of any slice.
ghost use Rattle.std.specs.Prelude.{◌+◌, ◌≤◌, ◌<◌, [], ◌∷◌, map, ◌≡◌, length};
ghost use Rattle.text.specs.Text.{put_at, bit_character, PutNumber, refused_as};

use crate::decimal::{digit_count, write_digits};

#[tactic(auto, using(crate::proofs::laws::Put::put_one))]
pub fn put_byte(out: &mut [u8], n: usize, b: u8) -> usize
    requires { n < length out.old }
    ensures { (result ≡ n + 1) × (out.new ≡ put_at out.old n (b ∷ [])) }
{
    out[n] = b;
    n + 1
}

#[tactic(auto, using(crate::proofs::laws::Put::put_part))]
pub fn put_word(out: &mut [u8], n: usize, word: &[u8]) -> usize
    requires { n + length word.now ≤ length out.old }
    ensures { (result ≡ n + length word.now) × (out.new ≡ put_at out.old n word.now) }
{
    let m = n + word.len();
    out[n..m].copy_from_slice(word);
    m
}

// Each bit is one character, '0' or '1'.
#[tactic(auto, using(crate::proofs::laws::Put::each_all))]
pub fn put_bits(out: &mut [u8], n: usize, bits: &[u8]) -> usize
    requires { n + length bits.now ≤ length out.old }
    ensures { (result ≡ n + length bits.now) × (out.new ≡ put_at out.old n (map bit_character bits.now)) }
{
    for (i, bit) in bits.iter().enumerate() {
        out[n + i] = character(*bit);
    }
    n + bits.len()
}

#[tactic(auto, unfolding(crate::specs::Text::bit_character))]
fn character(bit: u8) -> u8
    ensures { result ≡ bit_character bit }
{
    if bit == 0 { b'0' } else { b'1' }
}

// A number has at most twenty digits.
pub fn put_number(out: &mut [u8], n: usize, number: u64) -> usize
    requires { n + 20 ≤ length out.old }
    ensures { PutNumber number n result out.old out.new }
{
    let m = n + digit_count(number);
    write_digits(number, &mut out[n..m]);
    m
}

// A refusal's number is one digit.
#[tactic(auto, using(crate::proofs::laws::Put::put_then), unfolding(crate::specs::Text::refused_as))]
pub fn put_refused(out: &mut [u8], n: usize, number: u8) -> usize
    requires { (n + 9 ≤ length out.old) × (number ≤ 9) }
    ensures { (result ≡ n + 9) × (out.new ≡ put_at out.old n (refused_as number)) }
{
    let at = put_word(out, n, b"refused ");
    put_byte(out, at, b'0' + number)
}
