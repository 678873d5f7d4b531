// The list of one value from its groups, as Load makes it: the groups stand in the room of V and become the
// list there, eight at a time.
//
// Below stand `words`, which has the writer of lists, and `blocks`, which knows where a block has its lists. It
// knows nothing of columns and headers.
#![tactic(auto)]

pub mod listing;
