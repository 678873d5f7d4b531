// Digits of lower-case hexadecimal: what a byte counts for as one, the number of some digits, and the digits
// of a number. It knows nothing of lines.
#![tactic(auto)]

pub mod reading;
pub mod writing;
