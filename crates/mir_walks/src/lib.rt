// The steps of walks: what a proof by hand of a function over slices of records cites, written by tools/walkgen for
// the shapes of calls that shapes.txt names and for those of the repository's walks. There is no code here.
#![tactic(auto)]
