// Dump value by value and fence by fence: a fence is read once, and the words of a group once.
ghost use Rattle.std.specs.Prelude.{◌≡◌, true, ◌<◌, ◌≤◌, length};
ghost use Rattle.groups.specs.Rows.{groups_for};
ghost use Rattle.blocks.specs.Sizes.{fences_for};
ghost use Rattle.dump_spans.specs.Inner.{fences_hold, marked_fences, values_hold, marked_values};
ghost use Rattle.memory.specs.Inner.{Planned};
ghost use Rattle.memory.specs.Memory.{memory_of};

use block_read::fence::Fence;
use blocks::sizes::Sizes;
use dump_spans::dump::{fences_for, mark_fence};
use memory::header::Header;

// Marks the rows of one value. False if one of them is damaged.
fn mark_value(
    words: &[u32],
    fences: &[Fence],
    rows: &mut [u8],
    header: Header,
    sizes: Sizes,
    value: u32,
) -> bool
    requires { Planned header sizes (length words.now) (length fences.now) × (value < header.values) × (header.issued ≤ length rows.old) }
    ensures { (result ≡ fences_hold header (memory_of words.now fences.now) value rows.old (fences_for (groups_for header.issued) header.spacing))
        × (result ≡ true → rows.new
        ≡ marked_fences header (memory_of words.now fences.now) value rows.old (fences_for (groups_for header.issued) header.spacing)) }
{
    let count = fences_for(header.issued, header.spacing);
    let from = value as usize * sizes.fences;
    for (j, fence) in fences[from..from + count].iter().enumerate() {
        if !mark_fence(words, rows, sizes, *fence, header.issued, value, j) {
            return false;
        }
    }
    true
}

// Marks the rows of all values. False if a row is damaged.
pub fn mark_values(
    words: &[u32],
    fences: &[Fence],
    rows: &mut [u8],
    header: Header,
    sizes: Sizes,
) -> bool
    requires { Planned header sizes (length words.now) (length fences.now) × (header.issued ≤ length rows.old) }
    ensures { (result ≡ values_hold header (memory_of words.now fences.now) rows.old header.values)
        × (result ≡ true → rows.new ≡ marked_values header (memory_of words.now fences.now) rows.old header.values) }
{
    for value in 0..header.values {
        if !mark_value(words, fences, rows, header, sizes, value) {
            return false;
        }
    }
    true
}
