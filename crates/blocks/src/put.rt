// Writes one list of a block: its length and all words of its room, the unused ones with it.
ghost use Rattle.std.specs.Prelude.{◌≡◌, ◌≤◌, length, take};
ghost use Rattle.blocks.specs.Sizes.{value_room, update_room, block_size};
ghost use Rattle.blocks.specs.Inner.{with_value};
ghost use Rattle.blocks.specs.Block.{with_update, padded, zero_list};

use crate::layout::LENGTHS;
use crate::sizes::Sizes;
use words::word::fill_word;
use words::writer::copy;

// The most words of an update list's room.
pub const UPDATE_LIMIT: usize = 511;

// V becomes the first words of `room`, as many as V has room for, of which `count` are the list.
pub fn put_value(block: &mut [u32], sizes: Sizes, count: usize, room: &[u32])
    requires { (length block.old ≡ block_size sizes) × (count ≤ 4096) × (value_room sizes ≤ length room.now) }
    ensures { block.new ≡ with_value sizes count (take (value_room sizes) room.now) block.old }
{
    let size = sizes.value_room;
    let end = LENGTHS + size;
    block[0] = count as u32;
    copy(&room[..size], &mut block[LENGTHS..end]);
}

// U becomes the first words of `room`, as many as U has room for, of which `count` are the list.
pub fn put_update(block: &mut [u32], sizes: Sizes, count: usize, room: &[u32])
    requires { (length block.old ≡ block_size sizes) × (count ≤ 511) × (update_room sizes ≤ length room.now) }
    ensures { block.new ≡ with_update sizes count (take (update_room sizes) room.now) block.old }
{
    let size = sizes.update_room;
    let from = LENGTHS + sizes.value_room;
    let end = from + size;
    block[1] = count as u32;
    copy(&room[..size], &mut block[from..end]);
}

// U becomes the all-zero list.
pub fn clear_update(block: &mut [u32], sizes: Sizes)
    requires { length block.old ≡ block_size sizes }
    ensures { block.new ≡ with_update sizes 1 (padded (update_room sizes) (zero_list sizes)) block.old }
{
    let mut room = [0u32; UPDATE_LIMIT];
    room[0] = fill_word(0, sizes.groups);
    put_update(block, sizes, 1, &room);
}
