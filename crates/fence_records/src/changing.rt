// A value merged, and a row flipped in a value, as decided, with the fences of a value that was merged.
ghost use Rattle.std.specs.Prelude.{◌≡◌, true, ◌<◌, length};
ghost use Rattle.memory.specs.Inner.{Fenced};
ghost use Rattle.memory.specs.Memory.{memory_of};
ghost use Rattle.change_value.specs.Change.{whole, merges_in, merged_in, flipped_in};

use crate::records::renew;
use block_read::fence::Fence;
use blocks::sizes::Sizes;
use change_value::value::{flip_value, merge_value};

// Merges a value whose lists are whole, and makes its fences anew.
pub fn merge_fenced(words: &mut [u32], fences: &mut [Fence], sizes: Sizes, value: u32)
    requires { Fenced sizes (length words.old) (length fences.old) value × (whole sizes words.old value ≡ true) }
    ensures { memory_of words.new fences.new ≡ merged_in sizes (memory_of words.old fences.old) value }
{
    merge_value(words, sizes, value);
    renew(words, fences, sizes, value);
}

// Flips a row in a value whose lists are whole, as decided, and makes its fences anew where that merges it.
pub fn flip_fenced(
    words: &mut [u32],
    fences: &mut [Fence],
    sizes: Sizes,
    value: u32,
    row: u32,
    merges: bool,
)
    requires { Fenced sizes (length words.old) (length fences.old) value × (whole sizes words.old value ≡ true) × (row < sizes.rows)
        × (merges ≡ merges_in sizes words.old value row) }
    ensures { memory_of words.new fences.new ≡ flipped_in sizes (memory_of words.old fences.old) value row }
{
    flip_value(words, sizes, value, row, merges);
    if merges {
        renew(words, fences, sizes, value);
    }
}
