// Dump's part for one span of a value's groups: their rows get the value as their byte.
ghost use Rattle.std.specs.Prelude.{◌≡◌, true, ◌+◌, ◌-◌, ◌<◌, ◌≤◌, length};
ghost use Rattle.groups.specs.Rows.{groups_for};
ghost use Rattle.words.specs.Inner.{Alone};
ghost use Rattle.blocks.specs.Sizes.{block_size};
ghost use Rattle.dump_spans.specs.Inner.{in_lists, span_holds, span_marked};
ghost use Rattle.dump_marks.specs.Inner.{groups_hold, groups_marked};

use block_read::fence::Fence;
use blocks::layout::{update_length, update_list, value_length, value_list};
use blocks::sizes::Sizes;
use dump_marks::marking::mark_groups;
use list_walk::walk::{walk_on, walk_to};
use words::word::{ALL_ONES, group_in};

// The groups `from` up to `to`, whose rows below `issued` get the value.
#[derive(Clone, Copy)]
pub struct Span {
    pub from: u32,
    pub to: u32,
    pub issued: u32,
    pub value: u8,
}

// Up to which group, of those before `to`, all have the bits of `group`, behind which two words cover
// `beyond` and `more` groups. A group that is not uniform stands alone.
fn alike_up_to(bits: u32, group: u32, to: u32, beyond: u32, more: u32) -> u32
    requires { group < to }
    ensures { (group < result) × (result ≤ to) × (result - group ≤ beyond + 1) × (result - group ≤ more + 1) × Alone bits (result - group) }
{
    let behind = beyond.min(more).min(to - group - 1);
    if bits == 0 {
        return group + 1 + behind;
    }
    if bits == ALL_ONES {
        return group + 1 + behind;
    }
    group + 1
}

// Reads the groups of a span in V xor U, where `list` is V from a word on whose first group is `first`, and
// gives the value to their rows. Each word is opened once; groups of zeros, or of ones, that the same two
// words cover are one turn.
fn mark_lists(
    list: &[u32],
    update: &[u32],
    rows: &mut [u8],
    sizes: Sizes,
    first: u32,
    span: Span,
) -> bool
    requires { (span.from < span.to) × (span.to ≤ groups_for span.issued) × (span.issued ≤ length rows.old) }
    ensures { (result
        ≡ groups_hold (in_lists sizes list.now update.now first) span.from span.to span.issued rows.old)
        × (result ≡ true → rows.new
        ≡ groups_marked (in_lists sizes list.now update.now first) span.from span.to span.issued span.value rows.old) }
{
    let spacing = sizes.spacing as usize;
    let update_room = sizes.update_room;
    let Some(value_found) = walk_to(list, first, span.from, spacing) else {
        return false;
    };
    let Some(update_found) = walk_to(update, 0, span.from, update_room) else {
        return false;
    };
    let mut v = value_found;
    let mut u = update_found;
    let mut group = span.from;
    loop {
        let bits = group_in(v.word) ^ group_in(u.word);
        let end = alike_up_to(bits, group, span.to, v.beyond, u.beyond);
        if !mark_groups(rows, bits, group, end, span.issued, span.value) {
            return false;
        }
        if end == span.to {
            return true;
        }
        let Some(value_next) = walk_on(list, v, end - group, spacing) else {
            return false;
        };
        let Some(update_next) = walk_on(update, u, end - group, update_room) else {
            return false;
        };
        v = value_next;
        u = update_next;
        group = end;
    }
}

// Reads the groups of a span in a block, which one fence serves, and gives the value to their rows; `rows`
// has a byte for each row. False if a read is broken or a row is in another value already: the bytes are then
// good for nothing.
pub fn mark_span(block: &[u32], rows: &mut [u8], sizes: Sizes, fence: Fence, span: Span) -> bool
    requires { (length block.now ≡ block_size sizes)
        × (span.from ≤ span.to) × (span.to ≤ groups_for span.issued) × (span.issued ≤ length rows.old) }
    ensures { (result ≡ span_holds sizes fence block.now span.from span.to span.issued rows.old)
        × (result ≡ true → rows.new
        ≡ span_marked sizes fence block.now span.from span.to span.issued span.value rows.old) }
{
    if span.from == span.to {
        return true;
    }
    let length = value_length(block);
    let place = fence.place as usize;
    if sizes.value_room < length {
        return false;
    }
    if length <= place {
        return false;
    }
    if sizes.update_room < update_length(block) {
        return false;
    }
    let list = value_list(block, sizes);
    let update = update_list(block, sizes);
    mark_lists(&list[place..], update, rows, sizes, fence.first, span)
}
