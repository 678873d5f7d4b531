// The fields of a line, which spaces separate, and the number or the word that one spells. It knows nothing of
// indexes and of commands.
#![tactic(auto)]

pub mod line;
pub mod numbers;
pub mod values;
