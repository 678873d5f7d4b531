// What digits stand for.
ghost use Rattle.std.specs.Prelude.{◌≡◌, ◌+◌, ◌*◌, ◌<◌, ◌≤◌, length};
ghost use Rattle.digits.specs.Digits.{digit_of, digit_value, are_digits, number_in};

// What a byte counts for as a digit: 0 to 15, and none for any other byte.
#[tactic(auto, unfolding(crate::specs::Digits::digit_of))]
pub fn digit_of(byte: u8) -> Option<u8>
    ensures { result ≡ digit_of byte }
{
    match byte {
        b'0'..=b'9' => Some(byte - b'0'),
        b'a'..=b'f' => Some(byte - b'a' + 10),
        _ => None,
    }
}

// The number below 16 that a digit stands for; 0 for any other byte.
#[tactic(auto, using(crate::proofs::Digits::digit_small))]
pub fn digit_value(byte: u8) -> u8
    ensures { (result ≡ digit_value byte) × (result < 16) }
{
    digit_of(byte).unwrap_or(0)
}

// Whether all of some bytes are digits.
pub fn all_digits(bytes: &[u8]) -> bool
    ensures { result ≡ are_digits bytes.now }
{
    bytes.iter().all(|&byte| digit_of(byte).is_some())
}

// The number of at most 8 digits.
pub fn number_in(digits: &[u8]) -> u32
    requires { length digits.now ≤ 8 }
    ensures { result ≡ number_in digits.now }
{
    let mut number: u32 = 0;
    for &digit in digits {
        number = number * 16 + u32::from(digit_value(digit));
    }
    number
}
