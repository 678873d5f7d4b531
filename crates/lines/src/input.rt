// Lines of the standard input.
ghost use Rattle.std.specs.Prelude.{◌≤◌, IfOk, IfSome};
ghost use Rattle.lines.specs.declared.input.TheConstants.{CAPACITY};

use std::io::{self, Read, Stdin};

// The longest line, and its end.
const CAPACITY: usize = 600001;

// A line without its end, or one that the buffer does not hold.
#[derive(Clone, Copy)]
pub enum Line<'a> {
    Whole(&'a [u8]),
    TooLong,
}

// What is read and not yet given stands in the buffer from `next` to `end`; up to `seen` it holds no line end.
// Where `skips`, it is the rest of a line that is too long.
#[derive(Drop)]
pub struct Input {
    keyboard: Stdin,
    bytes: [u8; CAPACITY],
    next: usize,
    seen: usize,
    end: usize,
    skips: bool,
    ghost next_in: { next ≤ seen },
    ghost seen_in: { seen ≤ end },
    ghost end_in: { end ≤ CAPACITY },
}

impl Input {
    pub fn new(keyboard: Stdin) -> Input {
        Input {
            keyboard,
            bytes: [0; CAPACITY],
            next: 0,
            seen: 0,
            end: 0,
            skips: false,
        }
    }

    // The next line, for which it waits; none at the end of the input.
    pub fn next_line(&mut self) -> io::Result<Option<Line<'_>>> {
        match self.find_end()? {
            Some(to) => Ok(Some(self.take_line(to))),
            None => Ok(None),
        }
    }

    // Where the next line ends. A proved loop has to end, and nothing says that the input does: the reads are
    // counted up to a number that no run reaches.
    fn find_end(&mut self) -> io::Result<Option<usize>>
        ensures { IfOk result (λ found. IfSome found (λ to. (self.new.next ≤ to) × (to ≤ self.new.end))) }
    {
        for _ in 0..u64::MAX {
            let ahead = &self.bytes[self.seen..self.end];
            if let Some(len) = ahead.iter().position(|byte| *byte == b'\n') {
                return Ok(Some(self.seen + len));
            }
            self.seen = self.end;
            if !self.read_more()? {
                // What waits is the last line, which has no line end; of one that is too long nothing may be left.
                let is_line = 0 < self.end || self.skips;
                return Ok(is_line.then_some(self.end));
            }
        }
        Ok(None)
    }

    // Reads once, after what waits, which moves to the front if it is not there yet (a long line comes in many reads);
    // answers whether there was anything to read. A line that fills the buffer is passed over.
    fn read_more(&mut self) -> io::Result<bool> {
        if 0 < self.next {
            self.bytes.copy_within(self.next..self.end, 0);
            self.end -= self.next;
            self.next = 0;
        }
        if self.end == CAPACITY {
            self.end = 0;
            self.skips = true;
        }
        self.seen = self.end;
        let count = self.keyboard.read(&mut self.bytes[self.end..])?;
        self.end += count;
        Ok(0 < count)
    }

    // The line up to `to`, after which the next one begins behind a line end.
    fn take_line(&mut self, to: usize) -> Line<'_>
        requires { (self.old.next ≤ to) × (to ≤ self.old.end) }
    {
        let from = self.next;
        self.next = self.end.min(to + 1);
        self.seen = self.next;
        if self.skips {
            self.skips = false;
            return Line::TooLong;
        }
        Line::Whole(&self.bytes[from..to])
    }
}
