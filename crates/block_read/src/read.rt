// Document 01, "Reading one bit": the group of a row in V xor U, with the count of words opened. All
// rows of a group are read from the same words.
ghost use Rattle.std.specs.Prelude.{◌≡◌, length};
ghost use Rattle.blocks.specs.Sizes.{block_size};
ghost use Rattle.block_read.specs.Read.{group_read, read_value, read_update, read_group};
ghost use Rattle.list_walk.specs.Walk.{walk_to};

use crate::fence::Fence;
use blocks::layout::{update_length, update_list, value_length, value_list};
use blocks::sizes::Sizes;
use list_walk::walk::walk_to;
use words::word::group_in;

// A group of 31 rows, and the words opened to find it. There is none where the read is broken.
#[derive(Clone, Copy)]
pub struct Reading {
    pub group: u32,
    pub opened: usize,
}

// The group that a walk finds.
fn read_from(list: &[u32], first: u32, group: u32, budget: usize) -> Option<Reading>
    ensures { result ≡ group_read (walk_to list.now first group budget) }
{
    let covering = walk_to(list, first, group, budget)?;
    Some(Reading {
        group: group_in(covering.word),
        opened: covering.opened,
    })
}

// The group in V: the part of V from the fence's word on is passed to the walk.
fn read_value(block: &[u32], sizes: Sizes, fence: Fence, group: u32) -> Option<Reading>
    requires { length block.now ≡ block_size sizes }
    ensures { result ≡ read_value sizes fence group block.now }
{
    let length = value_length(block);
    let place = fence.place as usize;
    if sizes.value_room < length {
        return None;
    }
    if length <= place {
        return None;
    }
    let list = value_list(block, sizes);
    read_from(&list[place..], fence.first, group, sizes.spacing as usize)
}

// The group in U, from its first word on.
pub fn read_update(block: &[u32], sizes: Sizes, group: u32) -> Option<Reading>
    requires { length block.now ≡ block_size sizes }
    ensures { result ≡ read_update sizes group block.now }
{
    let room = sizes.update_room;
    if room < update_length(block) {
        return None;
    }
    read_from(update_list(block, sizes), 0, group, room)
}

// The group in V xor U of a block, given its fence. U is read first: the loop over V, the longer one, then has a
// register more.
pub fn read_group(block: &[u32], sizes: Sizes, fence: Fence, group: u32) -> Option<Reading>
    requires { length block.now ≡ block_size sizes }
    ensures { result ≡ read_group sizes fence group block.now }
{
    let update = read_update(block, sizes, group)?;
    let value = read_value(block, sizes, fence, group)?;
    Some(Reading {
        group: value.group ^ update.group,
        opened: value.opened + update.opened,
    })
}
