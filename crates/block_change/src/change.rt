// Changes of one value's block: merging, and turning a row over in U. Whether a flip merges is decided before
// anything is written.
ghost use Rattle.std.specs.Prelude.{◌≡◌, true, ◌++◌, ◌<◌, ◌≤◌, length, drop};
ghost use Rattle.blocks.specs.Sizes.{update_room, block_size};
ghost use Rattle.blocks.specs.Whole.{update_ones, whole_lists};
ghost use Rattle.block_change.specs.Change.{merged, turned_list, turned, merge_due, flipped};
ghost use Rattle.block_change.specs.Inner.{flip_for};

use crate::current::current_into;
use block_read::read::read_update;
use blocks::layout::update_list;
use blocks::put::{UPDATE_LIMIT, clear_update, put_update, put_value};
use blocks::sizes::Sizes;
use blocks::whole::check_lists;
use combinations::combine::xor_into;
use groups::rows::{GROUP_LIMIT, row_of};
use lists::one_row::one_row;

// V becomes V xor U, and U becomes all zero. Both lists are whole.
pub fn merge(block: &mut [u32], sizes: Sizes)
    requires { (length block.old ≡ block_size sizes) × (whole_lists sizes block.old ≡ true) }
    ensures { block.new ≡ merged sizes block.old }
{
    // A read field tells the limits of the sizes, which the calls below rest on.
    let _ = &sizes.groups;
    let mut list = [0u32; GROUP_LIMIT];
    let count = current_into(block, sizes, &mut list);
    put_value(block, sizes, count, &list);
    clear_update(block, sizes);
}

// Writes U with a row turned over to a place that is long enough; answers the list's length.
fn turned_into(block: &[u32], sizes: Sizes, row: u32, out: &mut [u32]) -> usize
    requires { (length block.now ≡ block_size sizes) × (whole_lists sizes block.now ≡ true)
        × (row < sizes.rows) × (length (turned_list sizes row block.now) ≤ length out.old) }
    ensures { (result ≡ length (turned_list sizes row block.now))
        × (out.new ≡ turned_list sizes row block.now ++ drop result out.old) }
{
    let groups = sizes.groups;
    let one = one_row(groups, row);
    let row_words = one.words;
    let row_count = one.count;
    xor_into(
        update_list(block, sizes),
        &row_words[..row_count],
        groups,
        out,
    )
}

// Turns a row over in U, which has room for it. Both lists are whole.
pub fn turn(block: &mut [u32], sizes: Sizes, row: u32)
    requires { (length block.old ≡ block_size sizes) × (whole_lists sizes block.old ≡ true)
        × (row < sizes.rows) × (length (turned_list sizes row block.old) ≤ update_room sizes) }
    ensures { block.new ≡ turned sizes row block.old }
{
    // A read field tells the limits of the sizes, which the calls below rest on.
    let _ = &sizes.update_room;
    let mut list = [0u32; UPDATE_LIMIT];
    let count = turned_into(block, sizes, row, &mut list);
    put_update(block, sizes, count, &list);
}

// Whether a merge comes before the row is turned over: its bit in U is 0 and U has T ones already. A whole
// U covers the row, so that the reading is never broken.
fn merge_due(block: &[u32], sizes: Sizes, row: u32, ones: u32) -> bool
    requires { (length block.now ≡ block_size sizes) × (whole_lists sizes block.now ≡ true)
        × (row < sizes.rows) × (ones ≡ update_ones sizes block.now) }
    ensures { result ≡ merge_due sizes row block.now }
{
    if ones < sizes.threshold {
        return false;
    }
    let Some(reading) = read_update(block, sizes, row / 31) else {
        return false;
    };
    row_of(reading.group, (row % 31) as usize) == 0
}

// Decides a flip: the whole check of both lists, and whether a merge comes first. Nothing may be done to lists that
// are not whole.
pub fn flip_for(block: &[u32], sizes: Sizes, row: u32) -> Option<bool>
    requires { (length block.now ≡ block_size sizes) × (row < sizes.rows) }
    ensures { result ≡ flip_for sizes row block.now }
{
    let ones = check_lists(block, sizes)?;
    Some(merge_due(block, sizes, row, ones))
}

// Carries a flip out: turns the row over in U, after a merge where one is due, since U has no room for T + 1
// ones. Both lists are whole.
pub fn flip_row(block: &mut [u32], sizes: Sizes, row: u32, merges: bool)
    requires { (length block.old ≡ block_size sizes) × (whole_lists sizes block.old ≡ true)
        × (row < sizes.rows) × (merges ≡ merge_due sizes row block.old) }
    ensures { block.new ≡ flipped sizes row block.old }
{
    // A read field tells the limits of the sizes, which the calls below rest on.
    let _ = &sizes.groups;
    if merges {
        merge(block, sizes);
    }
    turn(block, sizes, row);
}
