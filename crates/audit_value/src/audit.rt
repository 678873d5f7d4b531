// Audit's part for one value: its two lists, and its rows beside those of the values before.
ghost use Rattle.std.specs.Prelude.{◌≡◌, true, ◌++◌, ◌≤◌, length, take, drop, replicate};
ghost use Rattle.blocks.specs.Sizes.{block_size};
ghost use Rattle.groups.specs.Inner.{Groups};
ghost use Rattle.lists.specs.Combine.{combined};
ghost use Rattle.lists.specs.Inner.{either, apart};
ghost use Rattle.blocks.specs.Block.{current, padded};
ghost use Rattle.blocks.specs.Whole.{whole_lists};
ghost use Rattle.blocks.specs.Audit.{clear_lists, unused_zero, sound_lists};

use blocks::layout::{update_list, update_unused, value_list, value_unused};
use blocks::sizes::Sizes;
use blocks::whole::check_lists;
use groups::rows::{GROUP_LIMIT, all_zero};
use lists::clear::clear_from;
use lists::loose::{take_rows, turn_over_groups};

// Whether neither of two whole lists has a bit at row `issued` or above.
fn lists_clear(block: &[u32], sizes: Sizes, issued: u32) -> bool
    requires { (length block.now ≡ block_size sizes) × (whole_lists sizes block.now ≡ true) × (issued ≤ sizes.rows) }
    ensures { result ≡ clear_lists sizes issued block.now }
{
    let groups = sizes.groups;
    if !clear_from(value_list(block, sizes), groups, issued) {
        return false;
    }
    clear_from(update_list(block, sizes), groups, issued)
}

// Whether the words of both rooms that two whole lists leave unused are zero.
fn unused_zero(block: &[u32], sizes: Sizes) -> bool
    requires { (length block.now ≡ block_size sizes) × (whole_lists sizes block.now ≡ true) }
    ensures { result ≡ unused_zero sizes block.now }
{
    let value = value_unused(block, sizes);
    let update = update_unused(block, sizes);
    if !all_zero(value) {
        return false;
    }
    all_zero(update)
}

// Whether the lists of a block are sound where `issued` rows are: whole, with no bit at row `issued` or
// above, and zero words behind them. Each word is read once, and the last words of a list once more.
pub fn sound_lists(block: &[u32], sizes: Sizes, issued: u32) -> bool
    requires { (length block.now ≡ block_size sizes) × (issued ≤ sizes.rows) }
    ensures { result ≡ sound_lists sizes issued block.now }
{
    let Some(_) = check_lists(block, sizes) else {
        return false;
    };
    if !lists_clear(block, sizes, issued) {
        return false;
    }
    unused_zero(block, sizes)
}

// XORs V and U of whole lists into groups that are zero.
fn turn_over_lists(block: &[u32], sizes: Sizes, groups: &mut [u32])
    requires { (length block.now ≡ block_size sizes) × (whole_lists sizes block.now ≡ true) × (groups.old ≡ replicate 4096 0) }
    ensures { groups.new ≡ padded 4096 (current sizes block.now) }
{
    // A read field tells the limits of the sizes, which the calls below rest on.
    let _ = &sizes.groups;
    turn_over_groups(value_list(block, sizes), groups);
    turn_over_groups(update_list(block, sizes), groups);
}

// Whether no row of the value with this block is taken already in the first M groups of `taken`; behind the
// call its rows are taken too. Its lists are whole.
pub fn take_value(block: &[u32], sizes: Sizes, taken: &mut [u32]) -> bool
    requires { (length block.now ≡ block_size sizes) × (whole_lists sizes block.now ≡ true) × Groups taken.old
        × (sizes.groups ≤ length taken.old) }
    ensures { (result ≡ apart (take sizes.groups taken.old) (current sizes block.now))
        × (taken.new ≡ combined either (take sizes.groups taken.old) (current sizes block.now)
        ++ drop sizes.groups taken.old) }
{
    let count = sizes.groups as usize;
    let mut groups = [0u32; GROUP_LIMIT];
    turn_over_lists(block, sizes, &mut groups);
    take_rows(&mut taken[..count], &groups[..count])
}
