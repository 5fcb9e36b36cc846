// An answer in characters: its words, its numbers and its bytes, parted by spaces.
ghost use Rattle.std.specs.Prelude.{◌≡◌, ◌+◌, ◌≤◌, length};

use crate::answer::{Answer, Form};
use crate::fields::field;
use text::{put_byte, put_number, put_octets, put_word};

// A buffer and the place in it go together here as in text's put.rt, for the reason that stands there; put_answer and put_said are public and take a slice.
// Puts the answer into `out`, and gives the place after it.
pub fn put_answer(out: &mut [u8], answer: Answer, written: &[u8]) -> usize
    requires { (length written.now ≤ 600) × (1000 ≤ length out.old) }
    ensures { result ≤ 1000 }
{
    let n = put_word(out, 0, field(&answer.word, 0));
    let w = put_what(out, n, field(&answer.what, 0));
    let m = put_numbers(out, w, &answer.numbers);
    put_bytes(out, m, answer.bytes, answer.form, written)
}

// The second word, where there is one.
fn put_what(out: &mut [u8], n: usize, what: &[u8]) -> usize
    requires { (n ≤ 8) × (length what.now ≤ 8) × (1000 ≤ length out.old) }
    ensures { result ≤ 17 }
{
    if what.is_empty() {
        return n;
    }
    let m = put_space(out, n);
    put_word(out, m, what)
}

fn put_numbers(out: &mut [u8], n: usize, numbers: &[u32]) -> usize
    requires { (n ≤ 17) × (length numbers.now ≤ 16) × (1000 ≤ length out.old) }
    ensures { result ≤ 353 }
{
    let mut m = n;
    for number in numbers {
        let at = put_space(out, m);
        m = put_number(out, at, u64::from(*number));
    }
    m
}

// The bytes that are said, if any.
fn put_bytes(out: &mut [u8], n: usize, bytes: Option<usize>, form: Form, written: &[u8]) -> usize
    requires { (n ≤ 353) × (length written.now ≤ 600) × (1000 ≤ length out.old) }
    ensures { result ≤ 1000 }
{
    match bytes {
        None => n,
        Some(0) => put_word(out, n, b" -"),
        Some(count) => {
            let m = put_space(out, n);
            put_written(out, m, first(written, count), form)
        }
    }
}

// A space, before all but what stands first.
fn put_space(out: &mut [u8], n: usize) -> usize
    requires { n + 1 ≤ length out.old }
    ensures { result ≤ n + 1 }
{
    if n == 0 { 0 } else { put_byte(out, n, b' ') }
}

// The bytes that were written, in their form; of octets no more than a frame has.
fn put_written(out: &mut [u8], n: usize, bytes: &[u8], form: Form) -> usize
    requires { (n ≤ 354) × (length bytes.now ≤ 600) × (1000 ≤ length out.old) }
    ensures { result ≤ 1000 }
{
    match form {
        Form::Digits => put_digits(out, n, bytes),
        Form::Octets => put_octets(out, n, first(bytes, 40)),
        Form::Parted => put_parted(out, n, bytes),
    }
}

// A space after the first 21 digits.
fn put_parted(out: &mut [u8], n: usize, bytes: &[u8]) -> usize
    requires { (n ≤ 354) × (length bytes.now ≤ 600) × (1000 ≤ length out.old) }
    ensures { result ≤ 1000 }
{
    let (head, rest) = bytes.split_at(bytes.len().min(21));
    let m = put_digits(out, n, head);
    let l = put_space(out, m);
    put_digits(out, l, rest)
}

// Each byte is one character, '0' to '9', or x for one over 9.
fn put_digits(out: &mut [u8], n: usize, bytes: &[u8]) -> usize
    requires { n + length bytes.now ≤ length out.old }
    ensures { result ≡ n + length bytes.now }
{
    let end = n + bytes.len();
    for (to, byte) in out[n..end].iter_mut().zip(bytes) {
        *to = character(*byte);
    }
    end
}

fn character(byte: u8) -> u8 {
    if byte > 9 { b'x' } else { b'0' + byte }
}

// The first n bytes, or all where there are no more.
fn first(bytes: &[u8], n: usize) -> &[u8]
    ensures { (length result.now ≤ length bytes.now) × (length result.now ≤ n) }
{
    &bytes[..n.min(bytes.len())]
}
