// Where the parts of a block lie: V's length, U's length, V's room and U's room, one after the other.
ghost use Rattle.std.specs.Prelude.{◌≡◌, ◌≤◌, length, take, drop};
ghost use Rattle.blocks.specs.Sizes.{value_room, update_room, block_size};
ghost use Rattle.blocks.specs.Block.{value_length, update_length, value_words, update_words, value_list, update_list};

use crate::sizes::Sizes;

// The words before V's room: the two lengths.
pub const LENGTHS: usize = 2;

// V's length, whatever it is.
pub fn value_length(block: &[u32]) -> usize
    requires { 2 ≤ length block.now }
    ensures { result ≡ value_length block.now }
{
    block[0] as usize
}

// U's length, whatever it is.
pub fn update_length(block: &[u32]) -> usize
    requires { 2 ≤ length block.now }
    ensures { result ≡ update_length block.now }
{
    block[1] as usize
}

// V, whose length fits its room.
pub fn value_list(block: &[u32], sizes: Sizes) -> &[u32]
    requires { (length block.now ≡ block_size sizes) × (value_length block.now ≤ value_room sizes) }
    ensures { result.now ≡ value_list sizes block.now }
{
    let end = LENGTHS + block[0] as usize;
    &block[LENGTHS..end]
}

// U, whose length fits its room.
pub fn update_list(block: &[u32], sizes: Sizes) -> &[u32]
    requires { (length block.now ≡ block_size sizes) × (update_length block.now ≤ update_room sizes) }
    ensures { result.now ≡ update_list sizes block.now }
{
    let from = LENGTHS + sizes.value_room;
    let end = from + block[1] as usize;
    &block[from..end]
}

// The first words of V's room, whatever they are.
pub fn value_front(block: &[u32], sizes: Sizes, count: usize) -> &[u32]
    requires { (length block.now ≡ block_size sizes) × (count ≤ value_room sizes) }
    ensures { result.now ≡ take count (value_words sizes block.now) }
{
    let end = LENGTHS + count;
    &block[LENGTHS..end]
}

// The words of V's room that V leaves unused.
pub fn value_unused(block: &[u32], sizes: Sizes) -> &[u32]
    requires { (length block.now ≡ block_size sizes) × (value_length block.now ≤ value_room sizes) }
    ensures { result.now ≡ drop (value_length block.now) (value_words sizes block.now) }
{
    let from = LENGTHS + block[0] as usize;
    let end = LENGTHS + sizes.value_room;
    &block[from..end]
}

// The words of U's room that U leaves unused.
pub fn update_unused(block: &[u32], sizes: Sizes) -> &[u32]
    requires { (length block.now ≡ block_size sizes) × (update_length block.now ≤ update_room sizes) }
    ensures { result.now ≡ drop (update_length block.now) (update_words sizes block.now) }
{
    let room = LENGTHS + sizes.value_room;
    let from = room + block[1] as usize;
    let end = room + sizes.update_room;
    &block[from..end]
}
