// Document 01, "Numbers a caller can get back": the reasons of a refusal, and the answer of every call
// that gives one number back. Which number stands for which case is said in specs/Numbers.antt.
#![tactic(auto)]

ghost use Rattle.std.specs.Prelude.{◌≡◌};
ghost use Rattle.answers.specs.Numbers.{number_of};

// Why a call refused, in the order of document 01's numbers 1 to 10.
#[derive(Clone, Copy, Debug, PartialEq, Eq)]
pub enum Refusal {
    BadHeader,
    Small,
    BadValue,
    NoRow,
    Full,
    Damaged,
    Gone,
    OutSmall,
    BadList,
    BadFrame,
}

// What a call answers: the words or bytes written or the row given, where it is done; or its refusal.
pub type Answer = Result<usize, Refusal>;

// Document 01's number of a refusal.
impl From<Refusal> for u32 {
    ghost from_gives = { λ refusal number. number ≡ number_of refusal };

    fn from(refusal: Refusal) -> u32 {
        match refusal {
            Refusal::BadHeader => 1,
            Refusal::Small => 2,
            Refusal::BadValue => 3,
            Refusal::NoRow => 4,
            Refusal::Full => 5,
            Refusal::Damaged => 6,
            Refusal::Gone => 7,
            Refusal::OutSmall => 8,
            Refusal::BadList => 9,
            Refusal::BadFrame => 10,
        }
    }
}
