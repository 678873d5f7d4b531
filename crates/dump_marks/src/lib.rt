// The rows of some groups get a value as their byte, as Dump keeps them: a byte is 255 while no value has its
// row.
//
// Below it stands `block_read`, whose answers its specs speak of. It knows nothing of blocks and fences.
#![tactic(auto)]

pub mod marking;
