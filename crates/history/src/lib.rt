// Demand 3: what holds of an index after any calls in any order. Definitions and proofs alone, over the
// definitions that the promises of `index` cite; there is no code here.
#![tactic(auto)]
