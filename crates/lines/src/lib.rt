// The console's lines: those of the standard input, what one asks and the rows or words that it carries,
// and what is answered. It knows nothing of the index's calls and memory.
#![tactic(auto)]

pub mod failure;
pub mod input;
pub mod orders;
pub mod output;
pub mod replies;
