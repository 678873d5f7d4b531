// The word code of document 01, "Words and groups": groups in words, words in canonical lists, the writer of
// such lists, and how a finished list is given to a caller.
//
// Below it stand `groups`, for rows and their groups, and `answers`. It knows nothing of an index.
#![tactic(auto)]

pub mod give;
pub mod word;
pub mod writer;
