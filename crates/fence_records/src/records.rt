// The lent fence records: a thin read, and the two ways of going through the fences of a value, which are made anew,
// each written to its record, or compared. Where a fence leads is found on plain numbers.
ghost use Rattle.std.specs.Prelude.{◌≡◌, ◌≤◌, length, get_or};
ghost use Rattle.blocks.specs.Sizes.{value_room};
ghost use Rattle.blocks.specs.Block.{value_length};
ghost use Rattle.memory.specs.Fences.{no_fence, right_fences};
ghost use Rattle.memory.specs.Inner.{Fenced};
ghost use Rattle.memory.specs.Memory.{block_at, list_at, fences_at};
ghost use Rattle.change_value.specs.Change.{renewed};

use block_read::fence::Fence;
use blocks::sizes::Sizes;
use memory::fence::{find_fence, first_word};

// The record at a place; a record of zeros past the last one lent.
pub fn fence_at(fences: &[Fence], i: usize) -> Fence
    ensures { result ≡ get_or fences.now i no_fence }
{
    fences
        .get(i)
        .copied()
        .unwrap_or(Fence { place: 0, first: 0 })
}

// Makes the fences of a value anew, in one pass over its list.
pub fn renew(words: &[u32], fences: &mut [Fence], sizes: Sizes, value: u32)
    requires { Fenced sizes (length words.now) (length fences.old) value × (value_length (block_at sizes words.now value) ≤ value_room sizes) }
    ensures { fences.new ≡ renewed sizes words.now fences.old value }
{
    let from = value as usize * sizes.fences;
    let mut fence = first_word();
    for (j, record) in fences[from..from + sizes.fences].iter_mut().enumerate() {
        fence = find_fence(words, sizes, value, fence, j);
        *record = fence;
    }
}

// Whether every fence of a value is right.
pub fn fences_right(words: &[u32], fences: &[Fence], sizes: Sizes, value: u32) -> bool
    requires { Fenced sizes (length words.now) (length fences.now) value × (value_length (block_at sizes words.now value) ≤ value_room sizes) }
    ensures { result ≡ right_fences sizes (list_at sizes words.now value) 0 (fences_at sizes fences.now value) }
{
    let from = value as usize * sizes.fences;
    let mut fence = first_word();
    for (j, record) in fences[from..from + sizes.fences].iter().enumerate() {
        fence = find_fence(words, sizes, value, fence, j);
        if fence != *record {
            return false;
        }
    }
    true
}
