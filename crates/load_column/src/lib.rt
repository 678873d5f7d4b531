// What Load does with a column: its refusals, the groups of all values in one pass over the rows, and each
// value's list in its block.
//
// Below it stand `load_list`, for the list of one value, and `memory`, which has the header and the refusals that
// calls begin with; above it `index`, which has the fences made besides.
#![tactic(auto)]

pub mod column;
pub mod spread;
