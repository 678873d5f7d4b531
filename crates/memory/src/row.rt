// A row in all values: what the read of each value adds, and the state that comes of it.
ghost use Rattle.std.specs.Prelude.{◌≡◌, ◌+◌, ◌*◌, ◌-◌, ◌/◌, ◌%◌, ◌^◌, ◌<◌, ◌≤◌, length};
ghost use Rattle.block_read.specs.Read.{read_group};
ghost use Rattle.blocks.specs.Sizes.{block_size};
ghost use Rattle.memory.specs.Memory.{block_at};
ghost use Rattle.memory.specs.Reading.{no_row, row_step, value_of, refused_value, is_damaged};
ghost use Rattle.memory.specs.Inner.{holder_of, legible_holder};

use crate::place::block_of;
use answers::Refusal;
use block_read::fence::Fence;
use block_read::read::read_group;
use blocks::sizes::Sizes;
use groups::rows::{mask_of, under};

// What the values read so far say of a row: whether a read failed, in how many values the row is, the
// last of them, and the words opened.
#[derive(Clone, Copy)]
pub struct Row {
    pub damaged: bool,
    pub holders: u32,
    pub value: u32,
    pub opened: usize,
}

// A row's state: a live value, deleted, or a refusal.
#[derive(Clone, Copy)]
pub enum State {
    Live(u32),
    Deleted,
    Refused(Refusal),
}

// What Value answers: the row's state beside the words opened, 0 when refused.
#[derive(Clone, Copy)]
pub struct Value {
    pub state: State,
    pub opened: usize,
}

// A row that cannot be read: a read failed, or two values have the row.
#[derive(Clone, Copy)]
pub struct Unreadable;

// No value is read.
pub fn no_row() -> Row
    ensures { result ≡ no_row }
{
    Row {
        damaged: false,
        holders: 0,
        value: 0,
        opened: 0,
    }
}

// The mask of a row in its group.
pub fn row_mask(row: u32) -> u32
    ensures { result ≡ 2 ^ (30 - row % 31) }
{
    mask_of((row % 31) as usize)
}

// The row, whose mask in its group is given, in one value more, which is read from its fence on. At most 63 values
// are read already, and no read opens more than 767 words.
pub fn row_step(
    words: &[u32],
    sizes: Sizes,
    fence: Fence,
    row: u32,
    mask: u32,
    value: u32,
    before: Row,
) -> Row
    requires { (value * block_size sizes + block_size sizes ≤ length words.now)
        × (mask ≡ 2 ^ (30 - row % 31)) × (before.holders < 64) × (before.opened ≤ 48321) }
    ensures { result ≡ row_step row value before (read_group sizes fence (row / 31) (block_at sizes words.now value)) }
{
    // A read field tells the limits of the sizes, which the calls below rest on.
    let _ = &sizes.spacing;
    let block = block_of(words, sizes, value);
    let Some(reading) = read_group(block, sizes, fence, row / 31) else {
        return Row {
            damaged: true,
            ..before
        };
    };
    let opened = before.opened + reading.opened;
    if under(reading.group, mask) == 0 {
        return Row { opened, ..before };
    }
    Row {
        damaged: before.damaged,
        holders: before.holders + 1,
        value,
        opened,
    }
}

// Whether a read failed, or the row is in two values or more.
fn is_damaged(row: Row) -> bool
    ensures { result ≡ is_damaged row }
{
    row.damaged || 1 < row.holders
}

// What Value answers for a row that is read in all values.
pub fn value_of(row: Row) -> Value
    ensures { result ≡ value_of row }
{
    if is_damaged(row) {
        return refused(Refusal::Damaged);
    }
    if row.holders == 0 {
        return Value {
            state: State::Deleted,
            opened: row.opened,
        };
    }
    Value {
        state: State::Live(row.value),
        opened: row.opened,
    }
}

// A refusal opens no words.
pub fn refused(refusal: Refusal) -> Value
    ensures { result ≡ refused_value refusal }
{
    Value {
        state: State::Refused(refusal),
        opened: 0,
    }
}

// The value that holds a row which is read in all values, if one does: of several, the last. Whether the row can be
// read is not asked here.
pub fn holder_of(row: Row) -> Option<u32>
    ensures { result ≡ holder_of row }
{
    if row.holders != 0 {
        return Some(row.value);
    }
    None
}

// The holder of a row that can be read.
pub fn legible_holder(row: Row) -> Result<Option<u32>, Unreadable>
    ensures { result ≡ legible_holder row }
{
    if is_damaged(row) {
        return Err(Unreadable);
    }
    Ok(holder_of(row))
}
