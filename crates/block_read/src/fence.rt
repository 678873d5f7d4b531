// Fences: the words of a list by their places and first groups, found one after the other.
ghost use Rattle.std.specs.Prelude.{◌≡◌, ◌≤◌, length};
ghost use Rattle.blocks.specs.Sizes.{value_room, block_size};
ghost use Rattle.blocks.specs.Block.{value_length, value_list};
ghost use Rattle.block_read.specs.Fences.{locate_from};

use blocks::layout::value_list;
use blocks::sizes::Sizes;
use words::word::span_of;

// A fence: the place within a list of the word that covers the fence's group, and the first group which that
// word covers. It lies in memory as C has it, so that callers in other languages can lend such records.
#[repr(C)]
#[derive(Clone, Copy, PartialEq, Eq)]
pub struct Fence {
    pub place: u32,
    pub first: u32,
}

// From a word on to the word that covers the group, or to the end of the list.
fn locate_from(list: &[u32], fence: Fence, group: u32) -> Fence
    requires { (length list.now ≤ 4096) × (fence.place ≤ length list.now) × (fence.first ≤ group) × (group ≤ 4096) }
    ensures { result ≡ locate_from list.now fence group }
{
    let mut found = fence;
    for word in &list[fence.place as usize..] {
        let next = found.first + span_of(*word);
        if group < next {
            return found;
        }
        found = Fence {
            place: found.place + 1,
            first: next,
        };
    }
    found
}

// The fence of a group in V, found from the fence of a group before it.
pub fn next_fence(block: &[u32], sizes: Sizes, fence: Fence, group: u32) -> Fence
    requires { (length block.now ≡ block_size sizes) × (value_length block.now ≤ value_room sizes)
        × (fence.place ≤ value_length block.now) × (fence.first ≤ group) × (group ≤ 4096) }
    ensures { result ≡ locate_from (value_list sizes block.now) fence group }
{
    // A read field tells the limits of the sizes, which the calls below rest on.
    let _ = &sizes.value_room;
    locate_from(value_list(block, sizes), fence, group)
}
