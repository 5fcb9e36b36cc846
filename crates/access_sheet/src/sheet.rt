// The answer to one request of the access sheet.
ghost use Rattle.std.specs.Prelude.{◌+◌, ◌≤◌, ◌<◌, ◌≡◌, length};
ghost use Rattle.text.specs.Text.{put_at};
ghost use Rattle.access_sheet.specs.Sheet.{head_of, said, sheet_answer};

use text::{digit, put_bits, put_refused, put_word, read_bits};

// The answer to a line, without its newline: its head again and the bits, or the refusal.
pub fn answer(line: &[u8], out: &mut [u8]) -> usize
    requires { 40 ≤ length out.old }
    ensures { (result < 40) × (result ≡ length (sheet_answer line.now)) × (out.new ≡ put_at out.old 0 (sheet_answer line.now)) }
{
    if line.len() != 11 {
        return put_word(out, 0, b"?? refused 1");
    }
    let Some(identity) = read_head(line[0], line[1], line[2]) else {
        return put_word(out, 0, b"?? refused 1");
    };
    let n = put_word(out, 0, &line[..3]);
    put_access(out, n, identity as u64, &line[3..])
}

// The identity that two digits and a space say; nothing else is a head. The library refuses an identity over 63.
#[tactic(auto, unfolding(crate::specs::Sheet::head_of, crate::specs::Sheet::is_head))]
fn read_head(tens: u8, ones: u8, gap: u8) -> Option<u8>
    ensures { result ≡ head_of tens ones gap }
{
    let t = digit(tens);
    let o = digit(ones);
    if t > 9 || o > 9 || gap != b' ' {
        return None;
    }
    Some(10 * t + o)
}

// Puts the bits of the access burst that carries the eight characters, or the refusal.
fn put_access(out: &mut [u8], n: usize, identity: u64, characters: &[u8]) -> usize
    requires { (n + 36 ≤ length out.old) × (length characters.now ≡ 8) }
    ensures { (result ≤ n + 36) × (result ≡ n + length (said identity characters.now)) × (out.new ≡ put_at out.old n (said identity characters.now)) }
{
    let mut d = [0u8; 8];
    read_bits(characters, &mut d);
    let mut e = [0u8; 36];
    match coder::send_access(identity, &d, &mut e) {
        Ok(()) => put_bits(out, n, &e),
        Err(refusal) => put_refused(out, n, u8::from(refusal)),
    }
}
