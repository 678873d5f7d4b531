// V xor U of one block: as a list, and as what a block becomes by a merge and by a flip, which merges before it
// would have too many ones in U.
//
// Below stand `blocks`, `block_read` and `combinations`. It knows nothing of headers, of fences and of several
// values. The decision of a flip makes the whole check of both lists; every other function asks for whole lists.
#![tactic(auto)]

pub mod change;
pub mod current;
