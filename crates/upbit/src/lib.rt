// Every call under a C name, for callers in other languages: include/upbit.h declares them. What a call
// answers is given in plain numbers, those that document 01 has for each case; all else is the call's own.
//
// Below it stand `index`, whose calls these are, `packs` for Pack and Unpack, and `memory` for the limits.
#![tactic(auto)]

pub mod changes;
pub mod numbers;
pub mod packing;
pub mod questions;
pub mod room;
