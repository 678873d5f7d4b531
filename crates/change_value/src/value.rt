// Queries and changes of one value of an index. A function that decides reads only; one that carries out asks
// for what was decided. Fences are left to the caller.
ghost use Rattle.std.specs.Prelude.{◌≡◌, true, ◌+◌, ◌*◌, ◌<◌, ◌≤◌, length};
ghost use Rattle.answers.specs.Outcome.{Gives};
ghost use Rattle.blocks.specs.Sizes.{block_size};
ghost use Rattle.block_change.specs.Inner.{flip_for, list_outcome};
ghost use Rattle.memory.specs.Memory.{block_at};
ghost use Rattle.change_value.specs.Change.{whole, merges_in, merged_words, flipped_words};
ghost use Rattle.change_value.specs.Inner.{entered_whole};

use answers::{Answer, Refusal};
use block_change::change::{flip_for, flip_row, merge};
use block_change::current::list_current;
use blocks::sizes::Sizes;
use blocks::whole::check_lists;
use memory::entry::{Entry, enter_value};
use memory::header::Header;
use memory::place::block_of;

// Decides a query or a merge: BAD_HEADER, SMALL, BAD_VALUE, and DAMAGED where a list of the value is not whole.
pub fn enter_whole(words: &[u32], fences: usize, header: Header, value: u32) -> Entry
    ensures { result ≡ entered_whole words.now fences header value }
{
    let sizes = enter_value(words.len(), fences, header, value)?;
    let Some(_) = check_lists(block_of(words, sizes, value), sizes) else {
        return Err(Refusal::Damaged);
    };
    Ok(sizes)
}

// Writes the list of a value whose lists are whole.
pub fn list_value(words: &[u32], out: &mut [u32], sizes: Sizes, value: u32) -> Answer
    requires { (value * block_size sizes + block_size sizes ≤ length words.now) × (whole sizes words.now value ≡ true) }
    ensures { Gives (list_outcome sizes (block_at sizes words.now value) out.old) result out.new }
{
    list_current(block_of(words, sizes, value), sizes, out)
}

// Merges a value whose lists are whole.
pub fn merge_value(words: &mut [u32], sizes: Sizes, value: u32)
    requires { (value * block_size sizes + block_size sizes ≤ length words.old) × (whole sizes words.old value ≡ true) }
    ensures { words.new ≡ merged_words sizes words.old value }
{
    let at = value as usize * sizes.block;
    let end = at + sizes.block;
    merge(&mut words[at..end], sizes);
}

// Decides a flip of a row in a value: whether it merges first, if the lists of the value are whole.
pub fn decide_flip(words: &[u32], sizes: Sizes, value: u32, row: u32) -> Option<bool>
    requires { (value * block_size sizes + block_size sizes ≤ length words.now) × (row < sizes.rows) }
    ensures { result ≡ flip_for sizes row (block_at sizes words.now value) }
{
    flip_for(block_of(words, sizes, value), sizes, row)
}

// Flips a row in a value whose lists are whole, as decided.
pub fn flip_value(words: &mut [u32], sizes: Sizes, value: u32, row: u32, merges: bool)
    requires { (value * block_size sizes + block_size sizes ≤ length words.old) × (whole sizes words.old value ≡ true)
        × (row < sizes.rows) × (merges ≡ merges_in sizes words.old value row) }
    ensures { words.new ≡ flipped_words sizes words.old value row }
{
    let at = value as usize * sizes.block;
    let end = at + sizes.block;
    flip_row(&mut words[at..end], sizes, row, merges);
}
