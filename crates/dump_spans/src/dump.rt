// The steps of a dump: the rows that one fence serves, and the bytes that are given.
ghost use Rattle.std.specs.Prelude.{◌≡◌, true, ◌+◌, ◌*◌, ◌<◌, ◌≤◌, length};
ghost use Rattle.answers.specs.Outcome.{Gives};
ghost use Rattle.groups.specs.Rows.{row_limit, groups_for};
ghost use Rattle.blocks.specs.Sizes.{block_size, fences_for};
ghost use Rattle.memory.specs.Memory.{block_at};
ghost use Rattle.dump_spans.specs.Inner.{fence_holds, fence_marked, rows_given};

use crate::span::{Span, mark_span};
use answers::{Answer, Refusal};
use block_read::fence::Fence;
use blocks::sizes::{self, Sizes};
use dump_marks::marking::copy_rows;
use groups::rows::groups_for;
use memory::place::block_of;

// How many fences of a value serve a row below `issued`.
pub fn fences_for(issued: u32, spacing: u32) -> usize
    requires { (issued ≤ row_limit) × (1 ≤ spacing) × (spacing ≤ 256) }
    ensures { (result ≡ fences_for (groups_for issued) spacing) × (result ≤ 4096) }
{
    sizes::fences_for(groups_for(issued as usize) as u32, spacing) as usize
}

// Gives the value to its rows below `issued` that its fence `j` serves; `rows` has a byte for each row,
// 255 while no value has it. False if a read is broken or a row is in another value already: the bytes
// are then good for nothing.
pub fn mark_fence(
    words: &[u32],
    rows: &mut [u8],
    sizes: Sizes,
    fence: Fence,
    issued: u32,
    value: u32,
    j: usize,
) -> bool
    requires { (value * block_size sizes + block_size sizes ≤ length words.now) × (value < 256) × (issued ≤ sizes.rows)
        × (issued ≤ length rows.old) × (j < fences_for (groups_for issued) sizes.spacing) }
    ensures { (result ≡ fence_holds sizes fence (block_at sizes words.now value) issued j rows.old)
        × (result ≡ true → rows.new ≡ fence_marked sizes fence (block_at sizes words.now value) issued j value rows.old) }
{
    let spacing = sizes.spacing;
    let from = j as u32 * spacing;
    let to = (from + spacing).min(groups_for(issued as usize) as u32);
    let span = Span {
        from,
        to,
        issued,
        value: value as u8,
    };
    mark_span(block_of(words, sizes, value), rows, sizes, fence, span)
}

// Gives the first `issued` of the rows, if the output has room for them.
pub fn give_rows(rows: &[u8], out: &mut [u8], issued: u32) -> Answer
    requires { issued ≤ length rows.now }
    ensures { Gives (rows_given issued rows.now out.old) result out.new }
{
    let count = issued as usize;
    if out.len() < count {
        return Err(Refusal::OutSmall);
    }
    copy_rows(rows, out, 0, count);
    Ok(count)
}
