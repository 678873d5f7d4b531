// Rows and groups: a group is 31 rows in a word, the first row at the highest of its 31 bits.
ghost use Rattle.std.specs.Prelude.{◌≡◌, true, ℕ, ◌-◌, ◌/◌, ◌%◌, ◌^◌, ◌<◌, ◌≤◌, length, take};
ghost use Rattle.groups.specs.Rows.{row_limit, groups_for, are_bits, group_of, bits_of, all_zero};

use crate::eights::{eight_bits, eight_rows, put_eight, wide};

// The most rows a list can have.
pub const ROW_LIMIT: usize = 126976;

// The most groups a list can have: those of as many rows.
pub const GROUP_LIMIT: usize = 4096;

// Entry i is the mask of row i of a group: 2 to the 30 - i.
pub const MASKS: [u32; 31] = [
    0x40000000, 0x20000000, 0x10000000, 0x08000000, 0x04000000, 0x02000000, 0x01000000, 0x00800000,
    0x00400000, 0x00200000, 0x00100000, 0x00080000, 0x00040000, 0x00020000, 0x00010000, 0x00008000,
    0x00004000, 0x00002000, 0x00001000, 0x00000800, 0x00000400, 0x00000200, 0x00000100, 0x00000080,
    0x00000040, 0x00000020, 0x00000010, 0x00000008, 0x00000004, 0x00000002, 0x00000001,
];

// M: how many groups `length` rows have.
pub fn groups_for(length: usize) -> usize
    requires { length ≤ row_limit }
    ensures { result ≡ groups_for length }
{
    length.div_ceil(31)
}

// Whether each byte is 0 or 1. It looks at all of them: without an early end the loop is vectorised.
pub fn all_bits(rows: &[u8]) -> bool
    ensures { result ≡ are_bits rows.now }
{
    let mut largest: u8 = 0;
    for &row in rows {
        largest = largest.max(row);
    }
    largest < 2
}

// Whether each word is 0. It looks at all of them, as `all_bits` does.
pub fn all_zero(words: &[u32]) -> bool
    ensures { result ≡ all_zero words.now }
{
    let mut gathered: u32 = 0;
    for &word in words {
        gathered |= word;
    }
    gathered == 0
}

// The group of 31 rows, three times eight and seven: the last eight begin with a row that is there already.
fn whole_group(rows: &[u8]) -> u32
    requires { (are_bits rows.now ≡ true) × (length rows.now ≡ 31) }
    ensures { result ≡ group_of 31 rows.now }
{
    let front = (eight_rows(rows, 0) * 256 + eight_rows(rows, 8)) * 256 + eight_rows(rows, 16);
    front * 128 + eight_rows(rows, 23) % 128
}

// The group of at most 31 rows, gathered one after the other.
fn short_group(rows: &[u8]) -> u32
    requires { (are_bits rows.now ≡ true) × (length rows.now ≤ 31) }
    ensures { result ≡ group_of 31 rows.now }
{
    let mut group: u32 = 0;
    for &row in rows {
        group = group * 2 + wide(row);
    }
    group << (31 - rows.len())
}

// The group of at most 31 rows, each 0 or 1; a short group is filled with zeros at its low end.
pub fn group_of(rows: &[u8]) -> u32
    requires { (are_bits rows.now ≡ true) × (length rows.now ≤ 31) }
    ensures { result ≡ group_of 31 rows.now }
{
    if rows.len() == 31 {
        whole_group(rows)
    } else {
        short_group(rows)
    }
}

// The row of a group that stands under a mask.
pub fn under(group: u32, mask: u32) -> u8
    ensures { (k : ℕ) → mask ≡ 2 ^ k → result ≡ group / 2 ^ k % 2 }
{
    u8::from(group & mask != 0)
}

// The mask of row i of a group.
pub fn mask_of(i: usize) -> u32
    requires { i < 31 }
    ensures { result ≡ 2 ^ (30 - i) }
{
    MASKS[i]
}

// Row i of a group.
pub fn row_of(group: u32, i: usize) -> u8
    requires { i < 31 }
    ensures { result ≡ group / 2 ^ (30 - i) % 2 }
{
    under(group, mask_of(i))
}

// Writes the 31 rows of a group, eight at a time; the last eight begin with a row that is there already.
fn put_whole(out: &mut [u8], group: u32)
    requires { length out.old ≡ 31 }
    ensures { out.new ≡ bits_of 31 group }
{
    let bits = u64::from(group);
    put_eight(out, 0, eight_bits(bits, 23));
    put_eight(out, 8, eight_bits(bits, 15));
    put_eight(out, 16, eight_bits(bits, 7));
    put_eight(out, 23, eight_bits(bits, 0));
}

// Writes the first rows of a group, one after the other.
fn put_short(out: &mut [u8], group: u32)
    requires { length out.old ≤ 31 }
    ensures { out.new ≡ take (length out.old) (bits_of 31 group) }
{
    // One copy: a `const` table that is indexed in a loop is copied at every turn.
    let masks = MASKS;
    for (i, row) in out.iter_mut().enumerate() {
        *row = under(group, masks[i]);
    }
}

// Writes the first rows of a group, as many as `out` has room for.
pub fn put_rows(out: &mut [u8], group: u32)
    requires { length out.old ≤ 31 }
    ensures { out.new ≡ take (length out.old) (bits_of 31 group) }
{
    if out.len() == 31 {
        put_whole(out, group);
    } else {
        put_short(out, group);
    }
}
