// Fences on plain numbers: which of them serves a row, and where one leads.
ghost use Rattle.std.specs.Prelude.{◌≡◌, ◌+◌, ◌*◌, ◌/◌, ◌<◌, ◌≤◌, length};
ghost use Rattle.blocks.specs.Sizes.{value_room, block_size, fence_count};
ghost use Rattle.blocks.specs.Block.{value_length};
ghost use Rattle.block_read.specs.Fences.{fence_of, fence_at};
ghost use Rattle.memory.specs.Inner.{fence_before};
ghost use Rattle.memory.specs.Memory.{block_at, list_at};

use crate::place::block_of;
use block_read::fence::{Fence, next_fence};
use blocks::sizes::Sizes;

// The fence to the first word of a list.
pub fn first_word() -> Fence
    ensures { result ≡ fence_of 0 0 }
{
    Fence { place: 0, first: 0 }
}

// Fence j of a value's list, found from the fence before it on.
pub fn find_fence(words: &[u32], sizes: Sizes, value: u32, before: Fence, j: usize) -> Fence
    requires { (value * block_size sizes + block_size sizes ≤ length words.now)
        × (value_length (block_at sizes words.now value) ≤ value_room sizes) × (j < fence_count sizes)
        × (before ≡ fence_before sizes (list_at sizes words.now value) j) }
    ensures { result ≡ fence_at sizes (list_at sizes words.now value) j }
{
    let spacing = sizes.spacing;
    let group = j as u32 * spacing;
    next_fence(block_of(words, sizes, value), sizes, before, group)
}

// Which of a value's fences serves a row: g div G, g being the row's group.
pub fn fence_of(spacing: u32, row: u32) -> usize
    requires { 0 < spacing }
    ensures { result ≡ row / 31 / spacing }
{
    (row / 31 / spacing) as usize
}
