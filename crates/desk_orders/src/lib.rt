// The console's memory, and the commands that need no call of the index: what is lent and the header in use, looking
// into the memory and setting it, Pack and Unpack.
#![tactic(auto)]

pub mod state;
