// V xor U of a block, as a canonical list.
ghost use Rattle.std.specs.Prelude.{◌≡◌, true, ◌++◌, ◌≤◌, length, drop, replicate};
ghost use Rattle.answers.specs.Outcome.{Gives};
ghost use Rattle.words.specs.Words.{decode, encode};
ghost use Rattle.blocks.specs.Sizes.{block_size};
ghost use Rattle.blocks.specs.Block.{current};
ghost use Rattle.blocks.specs.Whole.{whole_lists};
ghost use Rattle.block_change.specs.Inner.{list_outcome};

use answers::Answer;
use blocks::layout::{update_list, value_list};
use blocks::sizes::Sizes;
use combinations::combine::xor_into;
use groups::rows::GROUP_LIMIT;
use words::give::give_list;
use words::word::group_in;
use words::writer::copy;

// Whether a list is one word of zeros, as U is when loaded and after a merge.
fn is_zero_fill(list: &[u32]) -> bool
    ensures { result ≡ true → decode list.now ≡ replicate (length (decode list.now)) 0 }
{
    if list.len() != 1 {
        return false;
    }
    group_in(list[0]) == 0
}

// Writes V xor U to a place with room for M words; answers the list's length. Where U is zeros that is V,
// copied as it is.
pub fn current_into(block: &[u32], sizes: Sizes, out: &mut [u32]) -> usize
    requires { (length block.now ≡ block_size sizes) × (whole_lists sizes block.now ≡ true)
        × (sizes.groups ≤ length out.old) }
    ensures { (result ≡ length (encode (current sizes block.now)))
        × (out.new ≡ encode (current sizes block.now) ++ drop result out.old) }
{
    let groups = sizes.groups;
    let value = value_list(block, sizes);
    let update = update_list(block, sizes);
    if is_zero_fill(update) {
        copy(value, out);
        return value.len();
    }
    xor_into(value, update, groups, out)
}

// As `list_current` where the output may be too short: the list is made aside, and the output is
// touched only if the list fits.
fn list_aside(block: &[u32], sizes: Sizes, out: &mut [u32]) -> Answer
    requires { (length block.now ≡ block_size sizes) × (whole_lists sizes block.now ≡ true) }
    ensures { Gives (list_outcome sizes block.now out.old) result out.new }
{
    // A read field tells the limits of the sizes, which the calls below rest on.
    let _ = &sizes.groups;
    let mut list = [0u32; GROUP_LIMIT];
    let length = current_into(block, sizes, &mut list);
    give_list(&list[..length], out)
}

// Writes V xor U of a block whose lists are whole, or refuses an output that is too short.
pub fn list_current(block: &[u32], sizes: Sizes, out: &mut [u32]) -> Answer
    requires { (length block.now ≡ block_size sizes) × (whole_lists sizes block.now ≡ true) }
    ensures { Gives (list_outcome sizes block.now out.old) result out.new }
{
    if out.len() < sizes.groups as usize {
        return list_aside(block, sizes, out);
    }
    let length = current_into(block, sizes, out);
    Ok(length)
}
