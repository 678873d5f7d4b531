// The column of a load: its bytes, its refusals, and the blocks that it makes.
ghost use Rattle.std.specs.Prelude.{◌≡◌, ℕ, ◌*◌, ◌≤◌, length, nat_le};
ghost use Rattle.blocks.specs.Sizes.{value_room, block_size};
ghost use Rattle.memory.specs.Entry.{valid_byte, valid_column};
ghost use Rattle.memory.specs.Inner.{entered_load};
ghost use Rattle.load_column.specs.Inner.{packed_words, loaded_words};

use crate::spread::spread;
use answers::Refusal;
use blocks::sizes::Sizes;
use groups::rows::groups_for;
use load_list::listing::pack_block;
use memory::entry::{Entry, ask, enter_index};
use memory::header::header_for;

// A byte and 1, where 255 becomes 0: it is at most d just where the byte is below d or is 255.
fn following(byte: u8) -> u8
    ensures { (values : ℕ) → nat_le result values ≡ valid_byte values byte }
{
    byte.wrapping_add(1)
}

fn at_most(byte: u8, values: u32) -> bool
    ensures { result ≡ nat_le byte values }
{
    u32::from(byte) <= values
}

// Whether each byte is below d or is 255. The largest of the bytes that follow them decides; without an
// early end the loop is vectorised.
fn column_valid(column: &[u8], values: u32) -> bool
    ensures { result ≡ valid_column values column.now }
{
    let mut largest = 0;
    for byte in column {
        largest = largest.max(following(*byte));
    }
    at_most(largest, values)
}

// For a load: BAD_HEADER by R, d, T and G alone, SMALL, then BAD_VALUE, then FULL.
pub fn enter_load(
    column: &[u8],
    words: usize,
    fences: usize,
    rows: u32,
    values: u32,
    threshold: u32,
    spacing: u32,
) -> Entry
    ensures { result ≡ entered_load words fences rows values threshold spacing column.now }
{
    let empty = header_for(rows, 0, values, threshold, spacing);
    let lent = enter_index(words, fences, empty);
    let valid = ask(lent, Refusal::BadValue, !column_valid(column, values));
    ask(valid, Refusal::Full, (rows as usize) < column.len())
}

// Packs the block of each value from the groups that stand first in its V's room.
fn pack_blocks(words: &mut [u32], sizes: Sizes, values: u32, filled: usize)
    requires { (values * block_size sizes ≤ length words.old) × (filled ≤ value_room sizes) }
    ensures { words.new ≡ packed_words sizes filled values words.old }
{
    let block = sizes.block;
    for value in 0..values as usize {
        let at = value * block;
        pack_block(&mut words[at..at + block], sizes, filled);
    }
}

// Writes the blocks of all values: one pass over the column, and one over the groups of each value.
pub fn load_blocks(words: &mut [u32], column: &[u8], sizes: Sizes, values: u32)
    requires { (values * block_size sizes ≤ length words.old) × (values ≤ 64) × (length column.now ≤ sizes.rows) }
    ensures { words.new ≡ loaded_words sizes column.now values words.old }
{
    // A read field tells the limits of the sizes, which the calls below rest on.
    let _ = &sizes.block;
    spread(words, column, sizes, values);
    pack_blocks(words, sizes, values, groups_for(column.len()));
}
