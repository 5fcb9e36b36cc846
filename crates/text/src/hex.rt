// Octets as hexadecimal digits, two of them an octet, in small letters.
ghost use Rattle.std.specs.Prelude.{◌+◌, ◌*◌, ◌/◌, ◌≤◌, true, ◌≡◌, length};
ghost use Rattle.text.specs.Hexadecimal.{hex_character, hex_digit, hex_of, is_hex, octets_of};
ghost use Rattle.text.specs.Text.{put_at};

use crate::read::digit;

// Puts the digits of the octets into `out` from place `n` on, and gives the place after them.
#[tactic(auto, using(crate::proofs::laws::Put::putting_all, crate::proofs::laws::Hexadecimal::length_hex))]
pub fn put_octets(out: &mut [u8], n: usize, octets: &[u8]) -> usize
    requires { n + 2 * length octets.now ≤ length out.old }
    ensures { (result ≡ n + 2 * length octets.now) × (out.new ≡ put_at out.old n (hex_of octets.now)) }
{
    for (i, octet) in octets.iter().enumerate() {
        out[n + 2 * i] = hex_character(octet / 16);
        out[n + 2 * i + 1] = hex_character(octet % 16);
    }
    n + 2 * octets.len()
}

#[tactic(auto, unfolding(crate::specs::Hexadecimal::hex_character))]
fn hex_character(digit: u8) -> u8
    requires { digit ≤ 15 }
    ensures { result ≡ hex_character digit }
{
    if digit < 10 {
        b'0' + digit
    } else {
        b'a' - 10 + digit
    }
}

// Is it an even number of digits?
pub fn is_hex(text: &[u8]) -> bool
    ensures { result ≡ is_hex text.now }
{
    text.len() % 2 == 0 && text.iter().all(|c| hex_digit(*c) <= 15)
}

// A character that is no digit is 255, as `digit` and the definition have it; a capital letter is none.
#[tactic(auto, unfolding(crate::specs::Hexadecimal::hex_digit, crate::specs::Text::digit_of))]
fn hex_digit(character: u8) -> u8
    ensures { result ≡ hex_digit character }
{
    match character {
        b'a'..=b'f' => character - b'a' + 10,
        _ => digit(character),
    }
}

// The octets of a text, and how many there are.
#[tactic(auto, using(crate::proofs::laws::Hexadecimal::hex_each, crate::proofs::laws::Put::putting_all, crate::proofs::laws::Hexadecimal::length_octets))]
pub fn read_octets(text: &[u8], octets: &mut [u8]) -> usize
    requires { (is_hex text.now ≡ true) × (length text.now / 2 ≤ length octets.old) }
    ensures { (result ≡ length text.now / 2) × (octets.new ≡ put_at octets.old 0 (octets_of text.now)) }
{
    let n = text.len() / 2;
    for i in 0..n {
        octets[i] = octet(text[2 * i], text[2 * i + 1]);
    }
    n
}

// The octet of two characters.
fn octet(high: u8, low: u8) -> u8
    requires { (hex_digit high ≤ 15) × (hex_digit low ≤ 15) }
    ensures { result ≡ 16 * hex_digit high + hex_digit low }
{
    16 * hex_digit(high) + hex_digit(low)
}
