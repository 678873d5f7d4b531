// A line console over every call of the index, for people who want to try it and for tests: `help` lists
// its commands. Each line is answered by one line.
#![tactic(auto)]

mod calls;
mod serve;

use block_read::fence::Fence;
use desk_orders::state::{Desk, FENCES, LINE, Lent, ROOM, WORDS};
use lines::input::Input;
use lines::output::Output;
use memory::header::no_header;
use serve::serve;
use std::io;

// The console's memory is made where it stays: a function that gave it back would need the room twice.
fn main(rt: HostRuntime) -> io::Result<()> {
    let mut input = Input::new(rt.stdin());
    let mut out = Output::new(rt.stdout());
    let mut desk = Desk {
        words: [0; WORDS],
        fences: [Fence { place: 0, first: 0 }; FENCES],
        rows: [0; LINE],
        list: [0; ROOM],
        lent: Lent::all(),
        header: no_header(),
    };
    serve(&mut input, &mut out, &mut desk)
}
