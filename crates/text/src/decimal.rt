// A number as decimal digits.
ghost use Rattle.std.specs.Prelude.{◌≤◌, ◌≡◌, length};
ghost use Rattle.text.specs.Decimal.{last_digits, IsDigitCount};

// How many digits a number takes.
pub fn digit_count(number: u64) -> usize
    ensures at_most { result ≤ 20 }
    ensures fewest { IsDigitCount number result }
{
    match number.checked_ilog10() {
        Some(k) => k as usize + 1,
        None => 1,
    }
}

// Fills `out` with the last digits of a number.
#[tactic(auto, using(crate::proofs::laws::Decimal::digits_step))]
pub fn write_digits(number: u64, out: &mut [u8])
    ensures { out.new ≡ last_digits (length out.old) number }
{
    let mut rest = number;
    for i in (0..out.len()).rev() {
        out[i] = b'0' + (rest % 10) as u8;
        rest /= 10;
    }
}
