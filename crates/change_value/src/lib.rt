// One value's part of the calls that list or change its rows: a query, a merge and a flip. What is to be done is
// decided first, after the whole check of the lists that it touches, and then carried out.
//
// Below stand `block_change`, which changes a block, and `memory`, which has the sizes of an index; above it
// `fence_records`, which has the fence records.
#![tactic(auto)]

pub mod value;
