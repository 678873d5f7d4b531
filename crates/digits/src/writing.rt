// The digits of a number.
ghost use Rattle.std.specs.Prelude.{◌≡◌, ◌+◌, ◌<◌, ◌≤◌, length};
ghost use Rattle.std.proofs.lemmas.List.Edits.{sets};
ghost use Rattle.digits.specs.Digits.{hex_digit, hex_digits};

fn hex_digit(number: u32) -> u8
    requires { number < 16 }
    ensures { result ≡ hex_digit number }
{
    if number < 10 {
        b'0' + number as u8
    } else {
        b'a' - 10 + number as u8
    }
}

// Writes the last `count` digits of a number, the highest first, to an output from a place on; answers the
// next place.
pub fn put_digits(out: &mut [u8], at: usize, number: u32, count: usize) -> usize
    requires { (count ≤ 8) × (at + count ≤ length out.old) }
    ensures { (result ≡ at + count) × (out.new ≡ sets out.old at (hex_digits count number)) }
{
    for i in 0..count {
        let left = count - 1 - i;
        out[at + i] = hex_digit((number >> (4 * left)) % 16);
    }
    at + count
}
