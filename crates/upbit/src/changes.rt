// The calls that change an index, under their C names. Each is the call of `index` that its body names, where
// its refusals and costs are said.
ghost use Rattle.memory.specs.Memory.{memory_of};
ghost use Rattle.index.specs.Calls.{load_after, insert_after, update_after, delete_after, merge_after};
ghost use Rattle.upbit.specs.Told.{Told};

use crate::numbers::ChangedNumbers;
use block_read::fence::Fence;
use index::changing::{delete, insert, merge, update};
use index::loading::load;
use memory::header::Header;

#[unsafe(no_mangle)]
pub extern "C" fn upbit_load(
    words: &mut [u32],
    fences: &mut [Fence],
    column: &[u8],
    rows: u32,
    values: u32,
    threshold: u32,
    spacing: u32,
) -> ChangedNumbers
    ensures { Told (load_after rows values threshold spacing column.now (memory_of words.old fences.old)) result words.new fences.new }
{
    ChangedNumbers::from(load(words, fences, column, rows, values, threshold, spacing))
}

#[unsafe(no_mangle)]
pub extern "C" fn upbit_insert(
    words: &mut [u32],
    fences: &mut [Fence],
    header: Header,
    value: u32,
) -> ChangedNumbers
    ensures { Told (insert_after header (memory_of words.old fences.old) value) result words.new fences.new }
{
    ChangedNumbers::from(insert(words, fences, header, value))
}

#[unsafe(no_mangle)]
pub extern "C" fn upbit_update(
    words: &mut [u32],
    fences: &mut [Fence],
    header: Header,
    row: u32,
    value: u32,
) -> ChangedNumbers
    ensures { Told (update_after header (memory_of words.old fences.old) row value) result words.new fences.new }
{
    ChangedNumbers::from(update(words, fences, header, row, value))
}

#[unsafe(no_mangle)]
pub extern "C" fn upbit_delete(
    words: &mut [u32],
    fences: &mut [Fence],
    header: Header,
    row: u32,
) -> ChangedNumbers
    ensures { Told (delete_after header (memory_of words.old fences.old) row) result words.new fences.new }
{
    ChangedNumbers::from(delete(words, fences, header, row))
}

#[unsafe(no_mangle)]
pub extern "C" fn upbit_merge(
    words: &mut [u32],
    fences: &mut [Fence],
    header: Header,
    value: u32,
) -> ChangedNumbers
    ensures { Told (merge_after header (memory_of words.old fences.old) value) result words.new fences.new }
{
    ChangedNumbers::from(merge(words, fences, header, value))
}
