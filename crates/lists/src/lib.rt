// One packed list by itself: the list of one row alone, whether a list has no 1 from a row on, and a list turned
// over in loose groups. Its specs and laws say what it is to combine two lists by an operation on bits.
//
// Below it stands `words`, which says what a list is. It knows nothing of values and headers.
#![tactic(auto)]

pub mod clear;
pub mod loose;
pub mod one_row;
