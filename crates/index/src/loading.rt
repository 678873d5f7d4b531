// Load: the lists and fences of all values, from a column of bytes.
ghost use Rattle.std.specs.Prelude.{◌≡◌, ◌≤◌, length};
ghost use Rattle.memory.specs.Inner.{Planned};
ghost use Rattle.memory.specs.Memory.{memory_of, sizes_of};
ghost use Rattle.memory.specs.Outcomes.{Leaves};
ghost use Rattle.index.specs.Calls.{loaded_in, load_after};

use block_read::fence::Fence;
use blocks::sizes::Sizes;
use fence_records::records::renew;
use load_column::column::{enter_load, load_blocks};
use memory::header::{Changed, Header, done, header_for, no_header, refuse};

// Writes the blocks of all values, and then their fences.
fn load_values(words: &mut [u32], fences: &mut [Fence], column: &[u8], header: Header, sizes: Sizes)
    requires { Planned header sizes (length words.old) (length fences.old) × (length column.now ≤ header.rows) }
    ensures { (words.new ≡ (loaded_in (sizes_of header) column.now header.values (memory_of words.old fences.old)).words)
        × (fences.new ≡ (loaded_in (sizes_of header) column.now header.values (memory_of words.old fences.old)).fences) }
{
    load_blocks(words, column, sizes, header.values);
    for value in 0..header.values {
        renew(words, fences, sizes, value);
    }
}

// Loads a column of bytes, one a row: a value below d, or 255 for a deleted row. It writes all lists and
// fences with empty updates, and gives the header: one pass over the column for the refusals, one for
// the groups of all values, and one over the groups of each value. What is lent beyond d x B words and
// d x F fences stays.
//
// Refuses, with a header of zeros: BAD_HEADER by R, d, T and G alone, SMALL, BAD_VALUE, FULL.
pub fn load(
    words: &mut [u32],
    fences: &mut [Fence],
    column: &[u8],
    rows: u32,
    values: u32,
    threshold: u32,
    spacing: u32,
) -> Changed
    ensures { Leaves (load_after rows values threshold spacing column.now (memory_of words.old fences.old)) result words.new fences.new }
{
    match enter_load(
        column,
        words.len(),
        fences.len(),
        rows,
        values,
        threshold,
        spacing,
    ) {
        Err(refusal) => refuse(no_header(), refusal),
        Ok(sizes) => {
            let header = header_for(rows, column.len(), values, threshold, spacing);
            load_values(words, fences, column, header, sizes);
            done(header)
        }
    }
}
