// The whole check of both lists of a value.
ghost use Rattle.std.specs.Prelude.{◌≡◌, length};
ghost use Rattle.blocks.specs.Sizes.{block_size};
ghost use Rattle.blocks.specs.Inner.{whole_of};

use crate::layout::{update_length, update_list, value_length, value_list};
use crate::sizes::Sizes;
use list_check::check::{check, ones_of};

// Checks both lists of a block: length, canonical form, M groups, bits past R zero, at most T ones in U. Answers the
// number of U's ones; none where a list is not whole.
// Each word is read once, those of U once more for their ones.
pub fn check_lists(block: &[u32], sizes: Sizes) -> Option<u32>
    requires { length block.now ≡ block_size sizes }
    ensures { result ≡ whole_of sizes block.now }
{
    if sizes.value_room < value_length(block) {
        return None;
    }
    if sizes.update_room < update_length(block) {
        return None;
    }
    let rows = sizes.rows as usize;
    let Ok(()) = check(value_list(block, sizes), rows) else {
        return None;
    };
    let update = update_list(block, sizes);
    let Ok(()) = check(update, rows) else {
        return None;
    };
    let ones = ones_of(update);
    if sizes.threshold < ones {
        return None;
    }
    Some(ones)
}
