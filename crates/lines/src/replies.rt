// Answers of what is done, each a line.
use crate::failure::Failure;
use crate::output::Output;
use digits::writing::put_digits;
use itoa::Buffer;
use memory::row::{State, Value};
use std::io::{self, Write};

// `0`, and the first `count` items, each as `put` puts it.
pub fn say_each<T: Copy, F: Fn(&mut Output, T) -> io::Result<()>>(
    out: &mut Output,
    items: &[T],
    count: usize,
    put: F,
) -> io::Result<()>
    requires { F.IsAlwaysCallable put }
{
    write!(out, "0")?;
    for item in items.iter().take(count) {
        put(out, *item)?;
    }
    writeln!(out)
}

// The first `count` words, as `0 WORD WORD ..`.
pub fn say_words(out: &mut Output, words: &[u32], count: usize) -> io::Result<()> {
    say_each(out, words, count, |out, word| {
        let mut digits = *b" 00000000";
        put_digits(&mut digits, 1, word, 8);
        out.write_all(&digits)
    })
}

// The first `count` rows of a dump, as `0 b b - ..`: by `itoa`, since `write!` takes twice as long.
pub fn say_rows(out: &mut Output, rows: &[u8], count: usize) -> io::Result<()> {
    say_each(out, rows, count, |out, row| match row {
        255 => out.write_all(b" -"),
        value => {
            out.write_all(b" ")?;
            out.write_all(Buffer::new().format(value).as_bytes())
        }
    })
}

// The first `count` rows of an unpack, as `0 DIGITS`; just `0` for none.
pub fn say_digits(out: &mut Output, rows: &[u8], count: usize) -> io::Result<()> {
    if count == 0 {
        return writeln!(out, "0");
    }
    write!(out, "0 ")?;
    for row in rows.iter().take(count) {
        let digit = if *row == 0 { b"0" } else { b"1" };
        out.write_all(digit)?;
    }
    writeln!(out)
}

// The state of a row.
pub fn say_value(out: &mut Output, found: Value) -> Result<(), Failure> {
    let opened = found.opened;
    match found.state {
        State::Live(value) => writeln!(out, "0 live {value} opened {opened}")?,
        State::Deleted => writeln!(out, "0 deleted opened {opened}")?,
        State::Refused(refusal) => return Err(refusal.into()),
    }
    Ok(())
}

// The commands.
pub fn say_help(out: &mut Output) -> io::Result<()> {
    out.write_all(HELP)
}

const HELP: &[u8] = b"\
# load R d T G b b ..  query v  value r  insert v  update r v  delete r  merge v  dump  audit
# pack DIGITS  unpack L WORD ..
# room K  lend W F  header R n d T G  poke I WORD  peek I K  pokefence I PLACE FIRST  peekfence I K
# numbers are decimal, words 8 hexadecimal digits; in a load 255 is a deleted row, in a dump -
# a refusal is its number and name; ? line: no such line; ? range: past the memory
";
