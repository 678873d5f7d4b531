// What Dump does for one fence of a value: the rows that the fence serves get the value as their byte; and
// the bytes that are given.
//
// Below it stand `memory`, which has the header, and `dump_marks`, which marks the rows of groups; above it `fence_records`,
// which has the fence records and goes from fence to fence and from value to value.
#![tactic(auto)]

pub mod dump;
pub mod span;
