// Where the block of a value lies in the lent words.
ghost use Rattle.std.specs.Prelude.{◌≡◌, ◌+◌, ◌*◌, ◌≤◌, length};
ghost use Rattle.blocks.specs.Sizes.{block_size};
ghost use Rattle.memory.specs.Memory.{block_at};

use blocks::sizes::Sizes;

// The block of a value: B words from v x B on.
pub fn block_of(words: &[u32], sizes: Sizes, value: u32) -> &[u32]
    requires { value * block_size sizes + block_size sizes ≤ length words.now }
    ensures { result.now ≡ block_at sizes words.now value }
{
    let at = value as usize * sizes.block;
    let end = at + sizes.block;
    &words[at..end]
}
