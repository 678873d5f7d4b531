// What an input line says: whether it is a frame, its numbers and its column.
ghost use Rattle.std.specs.Prelude.{◌≡◌, ◌++◌, ◌+◌, ◌-◌, ◌*◌, ◌/◌, ◌≤◌, length, take, drop};
ghost use Rattle.digits.specs.Digits.{digit_value, number_in};
ghost use Rattle.print.specs.Frame.{column_in, line_length, is_frame};

use digits::reading::{all_digits, digit_value, number_in};

// Whether a line is R, d, T and G in 16 digits, and then 2 for each of at most 4,000 rows.
pub fn is_frame(line: &[u8]) -> bool
    ensures { result ≡ is_frame line.now }
{
    if line.len() < 16 {
        return false;
    }
    if 8016 < line.len() {
        return false;
    }
    if line.len() % 2 != 0 {
        return false;
    }
    all_digits(line)
}

// How long the line is without its final newline, which may be missing.
pub fn line_length(input: &[u8]) -> usize
    ensures { result ≡ line_length input.now }
{
    match input.last() {
        Some(b'\n') => input.len() - 1,
        _ => input.len(),
    }
}

// The number of the digits from one place up to another.
pub fn number_at(line: &[u8], from: usize, to: usize) -> u32
    requires { (from ≤ to) × (to ≤ from + 8) × (to ≤ length line.now) }
    ensures { result ≡ number_in (take (to - from) (drop from line.now)) }
{
    number_in(&line[from..to])
}

fn byte_of(high: u8, low: u8) -> u8
    ensures { result ≡ digit_value high * 16 + digit_value low }
{
    digit_value(high) * 16 + digit_value(low)
}

// Writes the column of some digits, 2 a row, over the front of a place; answers how many rows there are.
pub fn read_column(digits: &[u8], column: &mut [u8]) -> usize
    requires { length digits.now / 2 ≤ length column.old }
    ensures { (result ≡ length (column_in digits.now)) × (column.new ≡ column_in digits.now ++ drop result column.old) }
{
    for (row, pair) in digits.chunks_exact(2).enumerate() {
        column[row] = byte_of(pair[0], pair[1]);
    }
    digits.len() / 2
}
