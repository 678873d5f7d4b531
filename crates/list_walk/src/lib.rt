// The walk of document 01, "Reading one bit": from a word of a list on to the word that covers a group, with
// its count of opened words.
//
// Below stand `words` and `lists`. It knows nothing of fences, blocks and values.
#![tactic(auto)]

pub mod walk;
