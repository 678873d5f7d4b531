// What Audit looks at in one value: whether the lists of its block are sound, and whether its rows are in no
// other value.
//
// Below stand `blocks`, which knows where a block has its lists, and `memory`, which knows where a value has
// its block; above it `fence_records`, which has the fence records and goes from value to value.
#![tactic(auto)]

pub mod audit;
pub mod value;
