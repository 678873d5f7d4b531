// The whole check of a list, and the count of its ones.
//
// Below it stands `words`, which says what a canonical list is. It knows nothing of an index.
#![tactic(auto)]

pub mod check;
