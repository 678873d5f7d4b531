// Rows and their groups of 31, from document 01, "Words and groups": how many groups some rows have, a group
// from its rows' bytes and back, and one row of a group.
//
// Nothing stands below it. It knows no words, runs or lists.
#![tactic(auto)]

mod eights;
pub mod rows;
