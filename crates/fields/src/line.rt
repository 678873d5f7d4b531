// The fields of a line, one after the other.
ghost use Rattle.std.specs.Prelude.{◌≡◌, [], length, option_and_then, option_copied};
ghost use Rattle.std.specs.Iterator.{at_most};
ghost use Rattle.fields.specs.Line.{next_field, rest_after};
ghost use Rattle.fields.specs.Numbers.{decimal_in, word_in};

use crate::numbers::{decimal_in, word_in};
use std::mem;

// What is left of a line. Fields are separated by spaces alone; any other byte may stand in one.
#[derive(Clone, Copy)]
pub struct Fields<'a> {
    line: &'a [u8],
}

impl<'a> Fields<'a> {
    pub fn new(line: &'a [u8]) -> Fields<'a>
        ensures { result.line.now ≡ line.now }
    {
        Fields { line }
    }

    // The decimal number that is the next field.
    pub fn number(&mut self) -> Option<u32>
        ensures value { result ≡ option_and_then decimal_in (next_field self.old.line.now) }
        ensures left { self.new.line.now ≡ rest_after self.old.line.now }
    {
        decimal_in(self.next()?)
    }

    // The word that is the next field.
    pub fn word(&mut self) -> Option<u32>
        ensures value { result ≡ option_and_then word_in (next_field self.old.line.now) }
        ensures left { self.new.line.now ≡ rest_after self.old.line.now }
    {
        word_in(self.next()?)
    }

    // All fields that are left: none is left here.
    pub fn rest(&mut self) -> Fields<'a>
        ensures taken { result.line.now ≡ self.old.line.now }
        ensures left { self.new.line.now ≡ [] }
    {
        mem::replace(self, Fields { line: b"" })
    }
}

impl<'a> Iterator for Fields<'a> {
    type Item = &'a [u8];

    ghost next_gives = { λ old field new. (option_copied field ≡ next_field old.line.now) × (new.line.now ≡ rest_after old.line.now) };

    ghost remaining = { λ fields. at_most (length fields.line.now) };

    fn next(&mut self) -> Option<&'a [u8]> {
        let from = self.line.iter().position(|byte| *byte != b' ')?;
        let (_, rest) = self.line.split_at(from);
        let len = rest
            .iter()
            .position(|byte| *byte == b' ')
            .unwrap_or(rest.len());
        let (field, rest) = rest.split_at(len);
        self.line = rest;
        Some(field)
    }
}
