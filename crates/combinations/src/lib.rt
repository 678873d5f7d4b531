// The XOR of two packed lists, by spans and by words that are copied as they are.
//
// Below it stand `words`, which writes a list word by word, and `lists`, whose specs and laws say what the
// combination of two lists is. It knows nothing of values and headers.
#![tactic(auto)]

pub mod combine;
mod copying;
mod span;
