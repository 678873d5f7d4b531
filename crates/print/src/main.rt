// Document 01's printing program: one line of hexadecimal on standard input is loaded, and the Query of
// each value is printed.
#![tactic(auto)]

ghost use Rattle.std.specs.Prelude.{◌≤◌, length, IfOk};

mod frame;
mod printing;
mod text;

use std::io::{self, Read, Stdin, Write};

// The longest line and its newline have 8,017 bytes: one more is read, so that a longer input is seen.
const INPUT_LIMIT: usize = 8018;

// Reads until the buffer is full or the input has ended; answers how many bytes it holds then. Each read but
// the last gives a byte at least.
fn read_full(mut source: Stdin, input: &mut [u8]) -> io::Result<usize>
    ensures { IfOk result (λ count. count ≤ length input.new) }
{
    let mut count = 0;
    for _ in 0..input.len() {
        let more = source.read(&mut input[count..])?;
        if more == 0 {
            break;
        }
        count += more;
    }
    Ok(count)
}

fn main(rt: HostRuntime) -> io::Result<()> {
    let mut input = [0u8; INPUT_LIMIT];
    let mut out = [0u8; 65536];
    let length = read_full(rt.stdin(), &mut input)?;
    let written = printing::print(&input[..length], &mut out);
    rt.stdout().write_all(&out[..written])
}
