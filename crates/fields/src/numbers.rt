// The number or the word that a field spells.
ghost use Rattle.std.specs.Prelude.{◌≡◌};
ghost use Rattle.fields.specs.Numbers.{with_digit, decimal_in, word_in};

use digits::reading::{all_digits, digit_of, number_in};

// A number with one digit more; none where that is no decimal digit, or the number passes 4294967295.
#[tactic(auto, unfolding(crate::specs::Numbers::with_digit))]
fn with_digit(value: u32, digit: u8) -> Option<u32>
    ensures { result ≡ with_digit value digit }
{
    if 10 <= digit {
        return None;
    }
    value.checked_mul(10)?.checked_add(u32::from(digit))
}

// A decimal number, up to 4294967295.
pub fn decimal_in(digits: &[u8]) -> Option<u32>
    ensures { result ≡ decimal_in digits.now }
{
    if digits.is_empty() {
        return None;
    }
    let mut value = 0;
    for byte in digits {
        value = with_digit(value, digit_of(*byte)?)?;
    }
    Some(value)
}

// A word: 8 hexadecimal digits.
#[tactic(auto, unfolding(crate::specs::Numbers::word_in))]
pub fn word_in(digits: &[u8]) -> Option<u32>
    ensures { result ≡ word_in digits.now }
{
    if digits.len() == 8 && all_digits(digits) {
        Some(number_in(digits))
    } else {
        None
    }
}
