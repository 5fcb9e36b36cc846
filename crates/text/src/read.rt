// Small readers: a byte is found, and characters are read as bits.
ghost use Rattle.std.specs.Prelude.{◌≤◌, map, ◌≡◌, length};
ghost use Rattle.text.specs.Text.{digit_of, put_at, without_mark, without_return};

// Where the byte next stands from `at` on, or the end: a place in any case, as its clause says, and so no Option.
pub fn find(bytes: &[u8], at: usize, byte: u8) -> usize
    requires { at ≤ length bytes.now }
    ensures { (at ≤ result) × (result ≤ length bytes.now) }
{
    match bytes[at..].iter().position(|b| *b == byte) {
        Some(ahead) => at + ahead,
        None => bytes.len(),
    }
}

// The bits of a text, a byte for each character, and how many there are.
#[tactic(auto, using(crate::proofs::laws::Put::each_all))]
pub fn read_bits(text: &[u8], d: &mut [u8]) -> usize
    requires { length text.now ≤ length d.old }
    ensures { (result ≡ length text.now) × (d.new ≡ put_at d.old 0 (map digit_of text.now)) }
{
    for (k, character) in text.iter().enumerate() {
        d[k] = digit(*character);
    }
    text.len()
}

// '0' to '9' are the bytes 0 to 9; any other character is 255, as digit_of has it, so that it is refused as a bit.
#[tactic(auto, unfolding(crate::specs::Text::digit_of))]
pub fn digit(character: u8) -> u8
    ensures { result ≡ digit_of character }
{
    match character {
        b'0'..=b'9' => character - b'0',
        _ => 255,
    }
}

// A text without the byte order mark that it may begin with.
#[tactic(auto, using(crate::proofs::laws::Plain::mark_stripped))]
pub fn without_mark(text: &[u8]) -> &[u8]
    ensures { result.now ≡ without_mark text.now }
{
    text.strip_prefix(b"\xef\xbb\xbf").unwrap_or(text)
}

// A line without the carriage return that it may end in.
#[tactic(auto, using(crate::proofs::laws::Plain::return_stripped))]
pub fn without_return(line: &[u8]) -> &[u8]
    ensures { result.now ≡ without_return line.now }
{
    line.strip_suffix(b"\r").unwrap_or(line)
}
