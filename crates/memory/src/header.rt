// The header of an index, and what a change answers.
ghost use Rattle.std.specs.Prelude.{◌≡◌, ◌<◌, ◌^◌};
ghost use Rattle.memory.specs.Inner.{refused_by, done_with};
ghost use Rattle.memory.specs.Entry.{header_for, no_header, grown};

use answers::{Answer, Refusal};

// Document 01's header: row capacity R, rows issued n, values d, threshold T, fence spacing G. It lies in
// memory as C has it, so that callers in other languages can pass it.
#[repr(C)]
#[derive(Clone, Copy)]
pub struct Header {
    pub rows: u32,
    pub issued: u32,
    pub values: u32,
    pub threshold: u32,
    pub spacing: u32,
}

// What a change answers: the header to use from now on, which is the one given where it is refused,
// beside the answer.
#[derive(Clone, Copy)]
pub struct Changed {
    pub header: Header,
    pub answer: Answer,
}

// A change that is refused gives back the header it got.
pub fn refuse(header: Header, refusal: Refusal) -> Changed
    ensures { result ≡ refused_by header refusal }
{
    Changed {
        header,
        answer: Err(refusal),
    }
}

// A change that is done, and gives no number back.
pub fn done(header: Header) -> Changed
    ensures { result ≡ done_with header 0 }
{
    Changed {
        header,
        answer: Ok(0),
    }
}

// An insert that is done: it answers the row it gave, and n grows by 1.
pub fn grow(header: Header) -> Changed
    requires { header.issued < header.rows }
    ensures { result ≡ done_with (grown header) header.issued }
{
    Changed {
        header: Header {
            issued: header.issued + 1,
            ..header
        },
        answer: Ok(header.issued as usize),
    }
}

// The header of zeros that a refused load gives, and that every call on an index refuses.
pub fn no_header() -> Header
    ensures { result ≡ no_header }
{
    header_for(0, 0, 0, 0, 0)
}

// The header of a load of so many rows.
pub fn header_for(rows: u32, issued: usize, values: u32, threshold: u32, spacing: u32) -> Header
    requires { issued < 2 ^ 32 }
    ensures { result ≡ header_for rows issued values threshold spacing }
{
    Header {
        rows,
        issued: issued as u32,
        values,
        threshold,
        spacing,
    }
}
