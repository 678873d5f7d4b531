// The groups of all values in one pass over a column: 31 rows are gathered aside, a group for each value,
// and each group is put into its value's block, where the value's list will stand. The blocks are cleared
// first, so that 31 rows of one value are one word.
ghost use Rattle.std.specs.Prelude.{◌≡◌, ℕ, ◌+◌, ◌*◌, ◌^◌, ◌<◌, ◌≤◌, length, if◌then◌else◌, nat_eq, slice_index, slice_set};
ghost use Rattle.groups.specs.Rows.{group_of};
ghost use Rattle.words.specs.Words.{all_ones};
ghost use Rattle.blocks.specs.Sizes.{block_size};
ghost use Rattle.load_list.specs.Column.{rows_with};
ghost use Rattle.load_column.specs.Inner.{Clear, Placed, Spread, one_byte};

use blocks::layout::LENGTHS;
use blocks::sizes::Sizes;
use load_list::listing::all_alike;
use words::word::ALL_ONES;

// The most values of an index.
const VALUE_LIMIT: usize = 64;

// Adds a row's mask to the group of its value; a byte that is no value has no group.
fn add_row(groups: &mut [u32], byte: u8, mask: u32)
    requires { byte < length groups.old → slice_index groups.old byte + mask < 2 ^ 32 }
    ensures { groups.new ≡ slice_set groups.old byte (slice_index groups.old byte + mask) }
{
    let value = usize::from(byte);
    if value < groups.len() {
        groups[value] += mask;
    }
}

// Gathers at most 31 rows into groups that are all zero: each value's group has the rows that hold it.
fn gather_groups(rows: &[u8], groups: &mut [u32])
    requires { (length rows.now ≤ 31) × ((value : ℕ) → slice_index groups.old value ≡ 0) }
    ensures { (value : ℕ) → value < length groups.old → slice_index groups.new value ≡ group_of 31 (rows_with value rows.now) }
{
    let mut mask: u32 = 0x80000000;
    for row in rows {
        mask /= 2;
        add_row(groups, *row, mask);
    }
}

// Puts the group of each value into its block.
fn put_groups(words: &mut [u32], groups: &[u32], values: usize, block: usize, place: usize)
    requires { (values ≤ length groups.now) × (place < block) × (values * block ≤ length words.old) }
    ensures { Placed values block place (λ value. slice_index groups.now value) words.old words.new }
{
    for (value, group) in groups[..values].iter().enumerate() {
        words[value * block + place] = *group;
    }
}

// Whether some rows are a whole group and hold one byte. The sixteen rows behind the first and the last
// sixteen are looked at; together they are all others.
fn one_byte(rows: &[u8]) -> bool
    ensures { result ≡ one_byte rows.now }
{
    if rows.len() != 31 {
        return false;
    }
    let byte = rows[0];
    all_alike(&rows[1..17], byte) && all_alike(&rows[15..31], byte)
}

// Puts the groups of 31 rows that hold one byte where 0 stands; a byte that is no value has no group.
fn put_whole(words: &mut [u32], byte: u8, values: usize, block: usize, place: usize)
    requires { (place < block) × (values * block ≤ length words.old) × Clear values block place words.old }
    ensures { Placed values block place (λ value. (if nat_eq byte value then all_ones else 0)) words.old words.new }
{
    let value = usize::from(byte);
    if value < values {
        words[value * block + place] = ALL_ONES;
    }
}

// Puts the groups of at most 31 rows into the blocks, where 0 stands.
fn spread_group(words: &mut [u32], rows: &[u8], values: usize, block: usize, place: usize)
    requires { (length rows.now ≤ 31) × (values ≤ 64) × (place < block) × (values * block ≤ length words.old) × Clear values block place words.old }
    ensures { Placed values block place (λ value. group_of 31 (rows_with value rows.now)) words.old words.new }
{
    if one_byte(rows) {
        put_whole(words, rows[0], values, block, place);
        return;
    }
    let mut groups = [0u32; VALUE_LIMIT];
    gather_groups(rows, &mut groups);
    put_groups(words, &groups, values, block, place);
}

// Puts all groups of a column into the blocks, from the first word of V's room on.
pub fn spread(words: &mut [u32], column: &[u8], sizes: Sizes, values: u32)
    requires { (values * block_size sizes ≤ length words.old) × (values ≤ 64) × (length column.now ≤ sizes.rows) }
    ensures { Spread sizes.block values column.now words.old words.new }
{
    let block = sizes.block;
    words[..values as usize * block].fill(0);
    for (group, rows) in column.chunks(31).enumerate() {
        spread_group(words, rows, values as usize, block, LENGTHS + group);
    }
}
