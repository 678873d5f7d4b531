// The memory of an index, without a slice of fence records: the header and its limits, the refusals that calls
// begin with, where a value's block lies, a row in one value more, and the next fence of a list.
//
// Below it stands `block_read`, which knows one value's block alone; above it `change_value`, `load_column`,
// `dump_spans` and `audit_value`, for what each call does besides, `fence_records`, which has the fence records,
// and `index`, which has the calls.
#![tactic(auto)]

pub mod entry;
pub mod fence;
pub mod header;
pub mod place;
pub mod row;
