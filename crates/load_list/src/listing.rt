// Load's part for one value: its groups, which stand in V's room, become its list there.
ghost use Rattle.std.specs.Prelude.{◌≡◌, true, ◌++◌, ℕ, ◌+◌, ◌<◌, ◌≤◌, length, get_or, drop};
ghost use Rattle.std.specs.List.{list_all};
ghost use Rattle.std.proofs.lemmas.List.Edits.{sets};
ghost use Rattle.words.specs.Words.{encode};
ghost use Rattle.words.specs.Inner.{written, Fits, Follows};
ghost use Rattle.blocks.specs.Sizes.{value_room, block_size};
ghost use Rattle.blocks.specs.Block.{padded};
ghost use Rattle.load_list.specs.Inner.{sparse_step, none_full, Clear, packed_block};

use blocks::layout::value_front;
use blocks::put::{clear_update, put_value};
use blocks::sizes::Sizes;
use groups::rows::GROUP_LIMIT;
use words::word::{ALL_ONES, fill_word};
use words::writer::ListWriter;

// How many groups of a list are looked at together.
const PART: usize = 8;

// The groups without a 1 that are pending after one group more.
fn zeros_after(zeros: u32, group: u32) -> u32
    requires { zeros < 0x40000000 }
    ensures { result ≡ (sparse_step zeros group).pending.count }
{
    if group == 0 { zeros + 1 } else { 0 }
}

// Writes the words of a group that is not all ones, after a run of groups without a 1, to a place where
// 0 stands; answers the next place. Both words are written in any case and then counted: a column's
// groups with and without a 1 come in no order, and a branch would be guessed wrong.
fn put_sparse(out: &mut [u32], at: usize, zeros: u32, group: u32) -> usize
    requires { (zeros < 0x40000000) × (at < length out.old) × (get_or out.old at 0 ≡ 0) × (at + (sparse_step zeros group).words ≤ length out.old) }
    ensures { (result ≡ at + (sparse_step zeros group).words) × (out.new ≡ sets out.old at (written (sparse_step zeros group))) }
{
    let held = usize::from(group != 0);
    out[at] = fill_word(0, zeros);
    let next = at + held * usize::from(zeros != 0);
    out[next] = group;
    next + held
}

// Takes some groups into a list, one after the other.
fn put_each(list: &mut ListWriter, groups: &[u32])
    requires { Fits groups.now list.old }
    ensures same_reference { list.new.out.ghost_name ≡ list.old.out.ghost_name }
    ensures follows { Follows groups.now list.old list.new }
{
    for group in groups {
        list.push(*group, 1);
    }
}

// Takes eight groups of which none is all ones into a list, after a run of groups without a 1.
fn put_sparse_each(list: &mut ListWriter, groups: &[u32; PART])
    requires { Fits groups.now list.old × Clear list.old × (list.old.pending.bit ≡ 0) × (none_full groups.now ≡ true) }
    ensures same_reference { list.new.out.ghost_name ≡ list.old.out.ghost_name }
    ensures follows { Follows groups.now list.old list.new }
{
    for group in groups {
        let zeros = list.pending.count;
        list.written = put_sparse(list.out, list.written, zeros, *group);
        list.pending.count = zeros_after(zeros, *group);
    }
}

// Whether some numbers are all the one given. It looks at all of them: without an early end the loop is
// vectorised.
pub fn all_alike<T: Copy + PartialEq>(numbers: &[T], number: T) -> bool
    ensures { result ≡ list_all (λ each. T.eq each number) numbers.now }
{
    let mut alike = true;
    for each in numbers {
        alike &= *each == number;
    }
    alike
}

// Whether none of eight groups is all ones. It looks at all of them, as `all_alike` does.
fn none_full(groups: &[u32; PART]) -> bool
    ensures { result ≡ none_full groups.now }
{
    let mut full = false;
    for group in groups {
        full |= *group == ALL_ONES;
    }
    !full
}

// Takes eight groups into a list: without a branch where none of them, and no group of the pending run,
// is all ones.
fn put_eight(list: &mut ListWriter, groups: &[u32; PART])
    requires { Fits groups.now list.old × Clear list.old }
    ensures same_reference { list.new.out.ghost_name ≡ list.old.out.ghost_name }
    ensures follows { Follows groups.now list.old list.new }
{
    if list.pending.bit == 1 || !none_full(groups) {
        put_each(list, groups);
    } else {
        put_sparse_each(list, groups);
    }
}

// Takes eight groups into a list. Where they only make the pending run longer they are counted and not
// looked at one by one; a run that begins among them goes on in the groups behind.
fn put_part(list: &mut ListWriter, groups: &[u32; PART])
    requires { Fits groups.now list.old × Clear list.old }
    ensures same_reference { list.new.out.ghost_name ≡ list.old.out.ghost_name }
    ensures follows { Follows groups.now list.old list.new }
{
    if all_alike(groups, list.pending.bit * ALL_ONES) {
        list.pending.count += PART as u32;
    } else {
        put_eight(list, groups);
    }
}

// Writes the list of some groups, all zero behind them up to `total`, over zeros; answers its length.
// Eight groups are taken in at a time, the last few one by one, and the zeros behind by one step.
fn list_into(groups: &[u32], total: u32, out: &mut [u32]) -> usize
    requires { (length groups.now ≤ total) × (total ≤ 4096) × (total ≤ length out.old) × ((i : ℕ) → get_or out.old i 0 ≡ 0) }
    ensures { (result ≡ length (encode (padded total groups.now)))
        × (out.new ≡ encode (padded total groups.now) ++ drop result out.old) }
{
    let mut list = ListWriter::new(out);
    let (parts, rest) = groups.as_chunks::<PART>();
    for part in parts {
        put_part(&mut list, part);
    }
    put_each(&mut list, rest);
    list.push_zeros(total - groups.len() as u32);
    list.finish()
}

// The first `filled` words of V's room, a group each, become the list of these groups, all zero behind them; the
// updates become empty.
pub fn pack_block(block: &mut [u32], sizes: Sizes, filled: usize)
    requires { (length block.old ≡ block_size sizes) × (filled ≤ value_room sizes) }
    ensures { block.new ≡ packed_block sizes filled block.old }
{
    let groups = sizes.groups;
    let mut list = [0u32; GROUP_LIMIT];
    let count = list_into(value_front(block, sizes, filled), groups, &mut list);
    put_value(block, sizes, count, &list);
    clear_update(block, sizes);
}
