// The rows of some groups get a value as their byte, as Dump keeps them: a byte is 255 while no value has
// its row.
ghost use Rattle.std.specs.Prelude.{◌≡◌, true, ◌+◌, ◌-◌, ◌<◌, ◌≤◌, length, drop};
ghost use Rattle.std.proofs.Math.Seq.{paste};
ghost use Rattle.groups.specs.Rows.{groups_for};
ghost use Rattle.words.specs.Words.{all_ones};
ghost use Rattle.words.specs.Inner.{Alone};
ghost use Rattle.dump_marks.specs.Inner.{each_row, every_row, free_in_group, marked_in_group, marked_in_groups, groups_hold, groups_marked, alike};

use words::word::ALL_ONES;

// Gives the value to each row of a group whose bit is 1, from one such row to the next; `rows` are the
// bytes of the group's first rows. False if such a row is in another value already: the bytes are then
// good for nothing.
fn mark_few(rows: &mut [u8], group: u32, value: u8) -> bool
    requires { (length rows.old ≤ 31) × (group < 0x80000000) }
    ensures { (result ≡ every_row (free_in_group group) 0 rows.old)
        × (result ≡ true → rows.new ≡ each_row (marked_in_group group value) 0 rows.old) }
{
    let mut rest = group;
    while rest != 0 {
        let ahead = u32::leading_zeros(rest) - 1;
        let row = ahead as usize;
        if rows.len() <= row {
            return true;
        }
        if rows[row] != 255 {
            return false;
        }
        rows[row] = value;
        rest -= 0x40000000 >> ahead;
    }
    true
}

// The second of two bytes where a group has the row's bit, and else the first; the row behind the
// group's has none.
fn by_bit(group: u32, row: usize, clear: u8, set: u8) -> u8
    requires { row < 32 }
    ensures { result ≡ marked_in_groups (alike group) 0 1 31 set row clear }
{
    if group & (0x40000000 >> row) == 0 {
        clear
    } else {
        set
    }
}

// Gives the value to each row of a whole group whose bit is 1; `rows` has a byte more, which stays as it
// is. All 32 are looked at: the loop is vectorised, sixteen at a time, and its masks are computed by the
// compiler. (A table of them would be written to memory at each call.)
fn mark_whole(rows: &mut [u8; 32], group: u32, value: u8) -> bool
    ensures { (result ≡ groups_hold (alike group) 0 1 31 rows.old)
        × (result ≡ true → rows.new ≡ groups_marked (alike group) 0 1 31 value rows.old) }
{
    let mut free: u8 = 255;
    for (row, byte) in rows.iter_mut().enumerate() {
        free &= by_bit(group, row, 255, *byte);
        *byte = by_bit(group, row, *byte, value);
    }
    free == 255
}

// Copies `count` rows to their places, from row `first` on.
pub fn copy_rows(from: &[u8], to: &mut [u8], first: usize, count: usize)
    requires { (first + count ≤ length from.now) × (first + count ≤ length to.old) }
    ensures { to.new ≡ paste to.old first (drop first from.now) count }
{
    let end = first + count;
    to[first..end].copy_from_slice(&from[first..end]);
}

// Gives the value to each row of a whole group whose bit is 1, in other bytes. The rows are copied there
// and back as sixteen and twice eight, one of them twice: the compiler does each at once. (It does not if
// the three are a function of their own.) Nothing behind the group is written, or the next group's load
// of sixteen bytes from there on would wait for it.
fn mark_many(rows: &mut [u8], group: u32, value: u8) -> bool
    requires { length rows.old ≡ 31 }
    ensures { (result ≡ every_row (free_in_group group) 0 rows.old)
        × (result ≡ true → rows.new ≡ each_row (marked_in_group group value) 0 rows.old) }
{
    let mut marked = [0u8; 32];
    copy_rows(rows, &mut marked, 0, 16);
    copy_rows(rows, &mut marked, 16, 8);
    copy_rows(rows, &mut marked, 23, 8);
    let free = mark_whole(&mut marked, group, value);
    copy_rows(&marked, rows, 0, 16);
    copy_rows(&marked, rows, 16, 8);
    copy_rows(&marked, rows, 23, 8);
    free
}

// Gives the value to all rows; false if one of them is in another value already. It looks at all of
// them: without an early end the loop is vectorised.
fn mark_all(rows: &mut [u8], value: u8) -> bool
    ensures { (result ≡ every_row (free_in_group all_ones) 0 rows.old)
        × (result ≡ true → rows.new ≡ each_row (marked_in_group all_ones value) 0 rows.old) }
{
    let mut free: u8 = 255;
    for row in rows.iter_mut() {
        free &= *row;
        *row = value;
    }
    free == 255
}

// Gives the value to the rows of groups that all have the same bits; only uniform groups are more than
// one.
fn mark_alike(rows: &mut [u8], bits: u32, value: u8) -> bool
    requires { (bits < 0x80000000) × ((bits ≡ 0 → ⊥) → (bits ≡ all_ones → ⊥) → length rows.old ≤ 31) }
    ensures { (result ≡ every_row (free_in_group bits) 0 rows.old)
        × (result ≡ true → rows.new ≡ each_row (marked_in_group bits value) 0 rows.old) }
{
    if bits == 0 {
        return true;
    }
    if bits == ALL_ONES {
        return mark_all(rows, value);
    }
    mark_few(rows, bits, value)
}

// Whether a group is marked by `mark_many`: more than one of its bits is 1, some are 0, and all of its
// rows are below `issued`.
fn is_many(bits: u32, start: usize, issued: usize) -> bool
    requires { start < 0x8000000000 }
    ensures { result ≡ true → (bits ≡ 0 → ⊥) × (bits ≡ all_ones → ⊥) × (start + 31 ≤ issued) }
{
    if bits == 0 {
        return false;
    }
    if bits == ALL_ONES {
        return false;
    }
    if issued < start + 31 {
        return false;
    }
    bits & (bits - 1) != 0
}

// Gives the value to the rows below `issued` of the groups `group` up to `end`, which all have the same
// bits; `rows` has a byte for each row. False if such a row is in another value already: the bytes are
// then good for nothing.
pub fn mark_groups(rows: &mut [u8], bits: u32, group: u32, end: u32, issued: u32, value: u8) -> bool
    requires { (bits < 0x80000000) × (group < end) × Alone bits (end - group) × (end ≤ groups_for issued) × (issued ≤ length rows.old) }
    ensures { (result ≡ groups_hold (alike bits) group end issued rows.old)
        × (result ≡ true → rows.new ≡ groups_marked (alike bits) group end issued value rows.old) }
{
    let start = group as usize * 31;
    if is_many(bits, start, issued as usize) {
        let behind = start + 31;
        return mark_many(&mut rows[start..behind], bits, value);
    }
    let stop = (end as usize * 31).min(issued as usize);
    mark_alike(&mut rows[start..stop], bits, value)
}
