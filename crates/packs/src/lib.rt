// The calls Pack and Unpack of document 01: bytes of rows to their canonical list, and back.
//
// Below stand `words`, for lists, and `answers`, for the numbers a caller gets back. It knows nothing of
// an index.
#![tactic(auto)]

pub mod packing;
pub mod unpacking;

pub use packing::pack;
pub use unpacking::unpack;
