// The console: a line is read, and answered before the next is waited for.
use crate::calls::{ask, make_change, make_load};
use desk_orders::state::Desk;
use lines::failure::Failure;
use lines::input::{Input, Line};
use lines::orders::{Order, is_silent, order_in};
use lines::output::Output;
use lines::replies::say_help;
use std::io::{self, Write};

// Obeys a line, and answers it where it is obeyed.
fn obey(desk: &mut Desk, out: &mut Output, line: &[u8]) -> Result<(), Failure> {
    match order_in(line).ok_or(Failure::NoCommand)? {
        Order::Load(load) => make_load(desk, out, load)?,
        Order::Change(change) => make_change(desk, out, change)?,
        Order::Ask(question) => ask(desk, out, question)?,
        Order::Set(setting) => {
            desk.set(setting)?;
            writeln!(out, "0")?;
        }
        Order::Peek { at, count } => desk.peek(out, at, count)?,
        Order::PeekFence { at, count } => desk.peek_fences(out, at, count)?,
        Order::Pack { digits } => desk.pack(out, digits)?,
        Order::Unpack { length, words } => desk.unpack(out, length, words)?,
        Order::Help => say_help(out)?,
    }
    Ok(())
}

// Answers a line. Only a failure of the input or the screen ends the console.
fn answer(desk: &mut Desk, out: &mut Output, line: Line<'_>) -> io::Result<()> {
    let obeyed = match line {
        Line::TooLong => Err(Failure::NoCommand),
        Line::Whole(line) if is_silent(line) => Ok(()),
        Line::Whole(line) => obey(desk, out, line),
    };
    match obeyed {
        Ok(()) => Ok(()),
        Err(Failure::Io(error)) => Err(error),
        Err(failure) => writeln!(out, "{failure}"),
    }
}

// Reads and answers up to the end of the input. A proved loop has to end, and nothing says that the input
// does: the turns are counted up to a number that no run reaches.
pub fn serve(input: &mut Input, out: &mut Output, desk: &mut Desk) -> io::Result<()> {
    for _ in 0..u64::MAX {
        let Some(line) = input.next_line()? else {
            break;
        };
        answer(desk, out, line)?;
        out.flush()?;
    }
    Ok(())
}
