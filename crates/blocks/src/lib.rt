// The block of one value, as document 01's "Memory of an index" lays it out: the value list's length, the
// update list's length, the room of the value list V and the room of the update list U. The sizes that all
// blocks share, the parts of a block, the whole check of its lists, and writing either list.
//
// A block is a slice of its own with the sizes beside it, and only this crate knows what lies where in it.
// Below stand `lists` and `list_check`. It knows nothing of calls, of fences and of several values.
#![tactic(auto)]

pub mod layout;
pub mod put;
pub mod sizes;
pub mod whole;
