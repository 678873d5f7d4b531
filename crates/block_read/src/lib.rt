// Reading in the block of one value: the group of a row in V xor U from its fence on, with the count of words
// opened, and the fences of V, which say where such a read begins, as plain numbers.
//
// Below stand `blocks`, which lays out a block, and `list_walk`, which walks along a list. This crate knows nothing
// of calls, of fence records and of several values.
#![tactic(auto)]

pub mod fence;
pub mod read;
