// What the calls answer, as structs of numbers that lie in memory as C has them.
ghost use Rattle.std.specs.Prelude.{◌≡◌};
ghost use Rattle.answers.specs.Numbers.{paper};
ghost use Rattle.memory.specs.Reading.{value_paper};
ghost use Rattle.upbit.specs.Told.{answer_numbers_of, changed_numbers_of, row_numbers_of};

use answers::Answer;
use memory::header::{Changed, Header};
use memory::row::{State, Value};

// Document 01's number, and the words or bytes written or the row given, 0 when refused.
#[repr(C)]
#[derive(Clone, Copy)]
pub struct AnswerNumbers {
    pub number: u32,
    pub count: usize,
}

// The header to use from now on, and the answer.
#[repr(C)]
#[derive(Clone, Copy)]
pub struct ChangedNumbers {
    pub header: Header,
    pub answer: AnswerNumbers,
}

// Document 01's number; 1 for a live row, else 0; its value, 255 if it is deleted, 0 when refused; and
// the words opened, 0 when refused.
#[repr(C)]
#[derive(Clone, Copy)]
pub struct RowNumbers {
    pub number: u32,
    pub live: u32,
    pub value: u32,
    pub opened: usize,
}

// Document 01's number, and the words and fences that an index needs, 0 when refused.
#[repr(C)]
#[derive(Clone, Copy)]
pub struct RoomNumbers {
    pub number: u32,
    pub words: usize,
    pub fences: usize,
}

impl From<Answer> for AnswerNumbers {
    ghost from_gives = { λ answer numbers. numbers ≡ answer_numbers_of (paper answer) };

    fn from(answer: Answer) -> AnswerNumbers {
        match answer {
            Ok(count) => AnswerNumbers { number: 0, count },
            Err(refusal) => AnswerNumbers {
                number: u32::from(refusal),
                count: 0,
            },
        }
    }
}

impl From<Changed> for ChangedNumbers {
    ghost from_gives = { λ changed numbers. numbers ≡ changed_numbers_of changed.header (paper changed.answer) };

    fn from(changed: Changed) -> ChangedNumbers {
        ChangedNumbers {
            header: changed.header,
            answer: AnswerNumbers::from(changed.answer),
        }
    }
}

impl From<Value> for RowNumbers {
    ghost from_gives = { λ row numbers. numbers ≡ row_numbers_of (value_paper row) };

    fn from(row: Value) -> RowNumbers {
        let opened = row.opened;
        match row.state {
            State::Live(value) => RowNumbers {
                number: 0,
                live: 1,
                value,
                opened,
            },
            State::Deleted => RowNumbers {
                number: 0,
                live: 0,
                value: 255,
                opened,
            },
            State::Refused(refusal) => RowNumbers {
                number: u32::from(refusal),
                live: 0,
                value: 0,
                opened,
            },
        }
    }
}
