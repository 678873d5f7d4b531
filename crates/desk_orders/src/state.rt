// The console's memory, what is lent of it and the header in use, and the commands that set them or look into them,
// pack or unpack. (The check covers a part of an array field that is lent by way of the whole: `&mut self.list[..]`,
// and of that a part.)
ghost use Rattle.std.specs.Prelude.{◌≤◌, IfOk};
ghost use Rattle.desk_orders.specs.declared.state.TheConstants.{ROOM, WORDS, FENCES};

use block_read::fence::Fence;
use fields::line::Fields;
use fields::numbers::word_in;
use fields::values::read_into;
use itoa::Buffer;
use lines::failure::Failure;
use lines::orders::Setting;
use lines::output::Output;
use lines::replies::{say_digits, say_each, say_words};
use memory::header::{Changed, Header};
use packs::packing::pack;
use packs::unpacking::unpack;
use std::io::Write;

// The longest output that is lent: a word or a byte for each row.
pub const ROOM: usize = 126976;

pub const WORDS: usize = 300000;

pub const FENCES: usize = 16384;

// The longest line. Its column or its digits fit in as many bytes, and its words, of nine bytes each, in `ROOM` words.
pub const LINE: usize = 600000;

// How much is lent to a call: output, words and fence records.
#[derive(Clone, Copy)]
pub struct Lent {
    pub room: usize,
    pub words: usize,
    pub fences: usize,
    ghost room_in: { room ≤ ROOM },
    ghost words_in: { words ≤ WORDS },
    ghost fences_in: { fences ≤ FENCES },
}

impl Lent {
    pub fn all() -> Lent {
        Lent {
            room: ROOM,
            words: WORDS,
            fences: FENCES,
        }
    }
}

// The memory, what is lent of it, and the header in use. The rows and the list that a command carries or asks for
// stand in `rows` and `list`; nothing there outlives the command.
#[derive(Drop)]
pub struct Desk {
    pub words: [u32; WORDS],
    pub fences: [Fence; FENCES],
    pub rows: [u8; LINE],
    pub list: [u32; ROOM],
    pub lent: Lent,
    pub header: Header,
}

// A number up to a limit.
fn up_to(limit: usize, number: u32) -> Result<usize, Failure>
    ensures { IfOk result (λ within. within ≤ limit) }
{
    let number = number as usize;
    if limit < number {
        return Err(Failure::OutOfRange);
    }
    Ok(number)
}

impl Desk {
    // After a change: the number that it gives back, and from now on its header. A refused one keeps the header.
    pub fn accept(&mut self, changed: Changed) -> Result<usize, Failure> {
        let number = changed.answer?;
        self.header = changed.header;
        Ok(number)
    }

    // What is refused sets nothing.
    pub fn set(&mut self, setting: Setting) -> Result<(), Failure> {
        match setting {
            Setting::Room { room } => self.lent.room = up_to(ROOM, room)?,
            Setting::Lend { words, fences } => self.lend(words, fences)?,
            Setting::Header(header) => self.header = header,
            Setting::Poke { at, word } => {
                *self.words.get_mut(at as usize).ok_or(Failure::OutOfRange)? = word;
            }
            Setting::PokeFence { at, place, first } => {
                *self.fences.get_mut(at as usize).ok_or(Failure::OutOfRange)? = Fence {
                    place,
                    first,
                };
            }
        }
        Ok(())
    }

    fn lend(&mut self, words: u32, fences: u32) -> Result<(), Failure> {
        self.lent = Lent {
            room: self.lent.room,
            words: up_to(WORDS, words)?,
            fences: up_to(FENCES, fences)?,
        };
        Ok(())
    }

    // `pack DIGITS`.
    pub fn pack(&mut self, out: &mut Output, digits: &[u8]) -> Result<(), Failure> {
        let digit = |byte: &u8| byte.checked_sub(b'0').filter(|digit| *digit < 10);
        let count = read_into(digits.iter(), &mut self.rows, digit).ok_or(Failure::NoCommand)?;
        let list = &mut self.list[..];
        let packed = pack(&self.rows[..count], &mut list[..self.lent.room])?;
        say_words(out, &self.list, packed)?;
        Ok(())
    }

    // `unpack L WORD ..`.
    pub fn unpack(
        &mut self,
        out: &mut Output,
        length: u32,
        words: Fields<'_>,
    ) -> Result<(), Failure> {
        let count = read_into(words, &mut self.list, word_in).ok_or(Failure::NoCommand)?;
        let rows = &mut self.rows[..];
        let rows = &mut rows[..self.lent.room];
        let unpacked = unpack(&self.list[..count], length as usize, rows)?;
        say_digits(out, &self.rows, unpacked)?;
        Ok(())
    }

    // `peek I K`.
    pub fn peek(&self, out: &mut Output, at: u32, count: u32) -> Result<(), Failure> {
        let from = at as usize;
        let words = self
            .words
            .get(from..from + count as usize)
            .ok_or(Failure::OutOfRange)?;
        say_words(out, words, words.len())?;
        Ok(())
    }

    // `peekfence I K`: each record as `PLACE:FIRST`, by `itoa`, since `write!` takes twice as long.
    pub fn peek_fences(&self, out: &mut Output, at: u32, count: u32) -> Result<(), Failure> {
        let from = at as usize;
        let fences = self
            .fences
            .get(from..from + count as usize)
            .ok_or(Failure::OutOfRange)?;
        say_each(out, fences, fences.len(), |out, fence| {
            out.write_all(b" ")?;
            out.write_all(Buffer::new().format(fence.place).as_bytes())?;
            out.write_all(b":")?;
            out.write_all(Buffer::new().format(fence.first).as_bytes())
        })?;
        Ok(())
    }
}
