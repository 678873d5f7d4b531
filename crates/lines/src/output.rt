// What goes to the screen. It gathers in a buffer of its own, and is written out where the buffer is full and
// where it is flushed.
ghost use Rattle.std.specs.Prelude.{◌≡◌, ◌≤◌, OnOk};
ghost use Rattle.lines.specs.declared.output.TheConstants.{BUFFER};

use std::io::{self, Stdout, Write};

const BUFFER: usize = 4096;

#[derive(Drop)]
pub struct Output {
    screen: Stdout,
    bytes: [u8; BUFFER],
    len: usize,
    ghost in_buffer: { len ≤ BUFFER },
}

impl Output {
    pub fn new(screen: Stdout) -> Output {
        Output {
            screen,
            bytes: [0; BUFFER],
            len: 0,
        }
    }

    // Writes out what has gathered.
    fn write_out(&mut self) -> io::Result<()>
        ensures { OnOk result (self.new.len ≡ 0) }
    {
        self.screen.write_all(&self.bytes[..self.len])?;
        self.len = 0;
        Ok(())
    }

    // One byte more.
    fn put(&mut self, byte: u8) -> io::Result<()> {
        if self.len == BUFFER {
            self.write_out()?;
        }
        self.bytes[self.len] = byte;
        self.len += 1;
        Ok(())
    }
}

impl Write for Output {
    fn write(&mut self, bytes: &[u8]) -> io::Result<usize> {
        if self.len == BUFFER {
            self.flush()?;
        }
        let count = bytes.len().min(BUFFER - self.len);
        self.bytes[self.len..self.len + count].copy_from_slice(&bytes[..count]);
        self.len += count;
        Ok(count)
    }

    // What fits goes in at once: by the trait's own, digit by digit, an unpack takes three times as long.
    fn write_all(&mut self, bytes: &[u8]) -> io::Result<()> {
        if bytes.len() <= BUFFER - self.len {
            self.bytes[self.len..self.len + bytes.len()].copy_from_slice(bytes);
            self.len += bytes.len();
            return Ok(());
        }
        for byte in bytes {
            self.put(*byte)?;
        }
        Ok(())
    }

    fn flush(&mut self) -> io::Result<()> {
        self.write_out()
    }
}
