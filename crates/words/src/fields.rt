// The fields of a line, exactly what stands between its spaces, and the number that one may be.
ghost use Rattle.std.specs.Prelude.{◌≡◌, ◌==◌, ◌≤◌, count_by, length};

use text::digit;

// How many arguments a line has: one behind each of its spaces.
pub fn arguments(line: &[u8]) -> usize
    ensures { result ≡ count_by (λ byte. byte == 32) line.now }
{
    line.iter().filter(|character| is_space(*character)).count()
}

fn is_space(character: &u8) -> bool
    ensures { result ≡ (character.now == 32) }
{
    *character == b' '
}

// Field k of a line, from 0; where there is none, nothing.
pub fn field(line: &[u8], k: usize) -> &[u8]
    ensures { length result.now ≤ length line.now }
{
    let rest = rest_of(line, k);
    let end = rest.iter().position(is_space).unwrap_or(rest.len());
    &rest[..end]
}

// What stands from field k on; where there is none, nothing. The line is looked at once, whatever k is.
pub fn rest_of(line: &[u8], k: usize) -> &[u8]
    ensures { length result.now ≤ length line.now }
{
    let mut left = k;
    for (at, character) in line.iter().enumerate() {
        if left == 0 {
            return &line[at..];
        }
        if is_space(character) {
            left -= 1;
        }
    }
    b""
}

// One to five digits, at most 65535; nothing else is a number.
pub fn read_number(characters: &[u8]) -> Option<u16> {
    if characters.is_empty() || characters.len() > 5 {
        return None;
    }
    let mut number = 0u16;
    for character in characters {
        let d = digit(*character);
        if d > 9 {
            return None;
        }
        number = number.checked_mul(10)?.checked_add(u16::from(d))?;
    }
    Some(number)
}
