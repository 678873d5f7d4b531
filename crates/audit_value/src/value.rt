// The step of an audit: the lists of one value, and its rows.
ghost use Rattle.std.specs.Prelude.{◌≡◌, true, ◌&&◌, ◌++◌, ◌+◌, ◌*◌, ◌≤◌, length, take, drop};
ghost use Rattle.groups.specs.Inner.{Groups};
ghost use Rattle.lists.specs.Combine.{combined};
ghost use Rattle.lists.specs.Inner.{either, apart};
ghost use Rattle.blocks.specs.Sizes.{block_size};
ghost use Rattle.blocks.specs.Audit.{sound_lists};
ghost use Rattle.blocks.specs.Block.{current};
ghost use Rattle.memory.specs.Memory.{block_at};

use crate::audit::{sound_lists, take_value};
use blocks::sizes::Sizes;
use memory::place::block_of;

// Whether the lists of a value are sound and none of its rows is taken yet; they are then taken. `taken` has
// the rows of the values before it. Where it answers false, `taken` is good for nothing.
pub fn audit_lists(words: &[u32], taken: &mut [u32], sizes: Sizes, issued: u32, value: u32) -> bool
    requires { (value * block_size sizes + block_size sizes ≤ length words.now) × (issued ≤ sizes.rows) × Groups taken.old
        × (sizes.groups ≤ length taken.old) }
    ensures { (result ≡ (sound_lists sizes issued (block_at sizes words.now value)
        && apart (take sizes.groups taken.old) (current sizes (block_at sizes words.now value))))
        × (result ≡ true → taken.new
        ≡ combined either (take sizes.groups taken.old) (current sizes (block_at sizes words.now value))
        ++ drop sizes.groups taken.old) }
{
    let block = block_of(words, sizes, value);
    if !sound_lists(block, sizes, issued) {
        return false;
    }
    take_value(block, sizes, taken)
}
