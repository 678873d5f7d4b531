// Audit value by value: the lists, their rows beside those of the values before, and the fences.
ghost use Rattle.std.specs.Prelude.{◌≡◌, true, ◌&&◌, ◌++◌, ◌≤◌, length, take, drop, replicate};
ghost use Rattle.groups.specs.Inner.{Groups};
ghost use Rattle.lists.specs.Combine.{combined};
ghost use Rattle.lists.specs.Inner.{either, apart};
ghost use Rattle.blocks.specs.Audit.{sound_lists};
ghost use Rattle.blocks.specs.Block.{current};
ghost use Rattle.memory.specs.Fences.{right_fences};
ghost use Rattle.memory.specs.Inner.{Planned, Fenced};
ghost use Rattle.memory.specs.Memory.{memory_of, block_at, list_at, fences_at, is_sound};

use crate::records::fences_right;
use audit_value::value::audit_lists;
use block_read::fence::Fence;
use blocks::sizes::Sizes;
use memory::header::Header;

// Whether a value is sound: its lists, its rows beside those taken before, which they join, and its fences.
pub fn audit_value(
    words: &[u32],
    fences: &[Fence],
    taken: &mut [u32],
    sizes: Sizes,
    issued: u32,
    value: u32,
) -> bool
    requires { Fenced sizes (length words.now) (length fences.now) value × (issued ≤ sizes.rows) × Groups taken.old
        × (sizes.groups ≤ length taken.old) }
    ensures { (result ≡ (sound_lists sizes issued (block_at sizes words.now value)
        && apart (take sizes.groups taken.old) (current sizes (block_at sizes words.now value))
        && right_fences sizes (list_at sizes words.now value) 0 (fences_at sizes fences.now value)))
        × (result ≡ true → taken.new
        ≡ combined either (take sizes.groups taken.old) (current sizes (block_at sizes words.now value))
        ++ drop sizes.groups taken.old) }
{
    if !audit_lists(words, taken, sizes, issued, value) {
        return false;
    }
    fences_right(words, fences, sizes, value)
}

// Whether all values are sound and no row is in two of them; no row is taken yet.
pub fn audit_values(
    words: &[u32],
    fences: &[Fence],
    taken: &mut [u32],
    header: Header,
    sizes: Sizes,
) -> bool
    requires { Planned header sizes (length words.now) (length fences.now) × (taken.old ≡ replicate 4096 0) }
    ensures { result ≡ is_sound header (memory_of words.now fences.now) }
{
    for value in 0..header.values {
        if !audit_value(words, fences, taken, sizes, header.issued, value) {
            return false;
        }
    }
    true
}
