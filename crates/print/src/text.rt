// Words and lines, written to an output from a place on. Each function answers the next place.
ghost use Rattle.std.specs.Prelude.{◌≡◌, ◌+◌, ◌<◌, ◌≤◌, length};
ghost use Rattle.std.proofs.lemmas.List.Edits.{sets};
ghost use Rattle.print.specs.Text.{hex_words, newline, value_line, refusal_line};

use digits::writing::put_digits;

fn put_words(list: &[u32], out: &mut [u8], at: usize) -> usize
    requires { at + length (hex_words list.now) ≤ length out.old }
    ensures { (result ≡ at + length (hex_words list.now)) × (out.new ≡ sets out.old at (hex_words list.now)) }
{
    let mut next = at;
    for word in list {
        next = put_digits(out, next, *word, 8);
    }
    next
}

fn put_newline(out: &mut [u8], at: usize) -> usize
    requires { at < length out.old }
    ensures { (result ≡ at + 1) × (out.new ≡ sets out.old at newline) }
{
    out[at] = b'\n';
    at + 1
}

// The line of a value and its list.
pub fn put_value(list: &[u32], out: &mut [u8], at: usize, value: u32) -> usize
    requires { at + length (value_line value list.now) ≤ length out.old }
    ensures { (result ≡ at + length (value_line value list.now)) × (out.new ≡ sets out.old at (value_line value list.now)) }
{
    let digits = put_digits(out, at, value, 2);
    let words = put_words(list, out, digits);
    put_newline(out, words)
}

// The line of a refusal.
pub fn put_refusal(out: &mut [u8], at: usize, number: u32) -> usize
    requires { at + length (refusal_line number) ≤ length out.old }
    ensures { (result ≡ at + length (refusal_line number)) × (out.new ≡ sets out.old at (refusal_line number)) }
{
    let mark = put_digits(out, at, 255, 2);
    let digits = put_digits(out, mark, number, 2);
    put_newline(out, digits)
}
