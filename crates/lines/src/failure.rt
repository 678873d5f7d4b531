// Why a line is not obeyed, which is what it is answered.
use answers::Refusal;
use std::{fmt, io};

// The line is no command; it names a place or a number past the memory; a call refuses it; or the input or the
// screen fails, which ends the console.
#[derive(Drop)]
pub enum Failure {
    NoCommand,
    OutOfRange,
    Refused(Refusal),
    Io(io::Error),
}

impl From<Refusal> for Failure {
    fn from(refusal: Refusal) -> Failure {
        Failure::Refused(refusal)
    }
}

impl From<io::Error> for Failure {
    fn from(error: io::Error) -> Failure {
        Failure::Io(error)
    }
}

impl fmt::Display for Failure {
    fn fmt<W: fmt::Write>(&self, f: &mut fmt::Formatter<W>) -> fmt::Result {
        match self {
            Failure::NoCommand => write!(f, "? line"),
            Failure::OutOfRange => write!(f, "? range"),
            Failure::Refused(refusal) => write!(f, "{} {}", u32::from(*refusal), name_of(*refusal)),
            Failure::Io(error) => write!(f, "{error}"),
        }
    }
}

fn name_of(refusal: Refusal) -> &'static str {
    match refusal {
        Refusal::BadHeader => "BAD_HEADER",
        Refusal::Small => "SMALL",
        Refusal::BadValue => "BAD_VALUE",
        Refusal::NoRow => "NO_ROW",
        Refusal::Full => "FULL",
        Refusal::Damaged => "DAMAGED",
        Refusal::Gone => "GONE",
        Refusal::OutSmall => "OUT_SMALL",
        Refusal::BadList => "BAD_LIST",
        Refusal::BadFrame => "BAD_FRAME",
    }
}
