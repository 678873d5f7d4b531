// What a call that changes rows is to do, decided before anything is written: the refusal that it earns, or the
// flips of its row and whether each merges first. Nothing is changed here.
ghost use Rattle.std.specs.Prelude.{◌≡◌};
ghost use Rattle.memory.specs.Memory.{memory_of};
ghost use Rattle.index.specs.Inner.{insert_decision, delete_decision, update_decision};

use answers::Refusal;
use block_read::fence::Fence;
use blocks::sizes::Sizes;
use change_value::value::decide_flip;
use fence_records::reading::read_row;
use memory::entry::{enter_insert, enter_row, enter_update};
use memory::header::Header;
use memory::row::legible_holder;

// What Insert or Delete is to do: a flip of its row in a value, and whether it merges first.
#[derive(Clone, Copy)]
pub struct Flipping {
    pub sizes: Sizes,
    pub value: u32,
    pub merges: bool,
}

// What Update is to do: a flip of the row in the old value, which has it, and one in the new value, and whether
// either merges first.
#[derive(Clone, Copy)]
pub struct Moving {
    pub sizes: Sizes,
    pub old: u32,
    pub old_merges: bool,
    pub new_merges: bool,
}

// Insert: row n must be free, and the lists of the value whole.
pub fn decide_insert(
    words: &[u32],
    fences: &[Fence],
    header: Header,
    value: u32,
) -> Result<Flipping, Refusal>
    ensures { result ≡ insert_decision header (memory_of words.now fences.now) value }
{
    let sizes = enter_insert(words.len(), fences.len(), header, value)?;
    let found = read_row(words, fences, header, sizes, header.issued);
    let Ok(holder) = legible_holder(found) else {
        return Err(Refusal::Damaged);
    };
    let None = holder else {
        return Err(Refusal::Damaged);
    };
    let Some(merges) = decide_flip(words, sizes, value, header.issued) else {
        return Err(Refusal::Damaged);
    };
    Ok(Flipping {
        sizes,
        value,
        merges,
    })
}

// Delete: the row must be legible and live, and the lists of its value whole.
pub fn decide_delete(
    words: &[u32],
    fences: &[Fence],
    header: Header,
    row: u32,
) -> Result<Flipping, Refusal>
    ensures { result ≡ delete_decision header (memory_of words.now fences.now) row }
{
    let sizes = enter_row(words.len(), fences.len(), header, row)?;
    let found = read_row(words, fences, header, sizes, row);
    let Ok(holder) = legible_holder(found) else {
        return Err(Refusal::Damaged);
    };
    let Some(value) = holder else {
        return Err(Refusal::Gone);
    };
    let Some(merges) = decide_flip(words, sizes, value, row) else {
        return Err(Refusal::Damaged);
    };
    Ok(Flipping {
        sizes,
        value,
        merges,
    })
}

// Update: the row must be legible and live, and the lists of both values whole, if they differ. Nothing is to be
// done where they are the same.
pub fn decide_update(
    words: &[u32],
    fences: &[Fence],
    header: Header,
    row: u32,
    value: u32,
) -> Result<Option<Moving>, Refusal>
    ensures { result ≡ update_decision header (memory_of words.now fences.now) row value }
{
    let sizes = enter_update(words.len(), fences.len(), header, row, value)?;
    let found = read_row(words, fences, header, sizes, row);
    let Ok(holder) = legible_holder(found) else {
        return Err(Refusal::Damaged);
    };
    let Some(old) = holder else {
        return Err(Refusal::Gone);
    };
    if old == value {
        return Ok(None);
    }
    let Some(old_merges) = decide_flip(words, sizes, old, row) else {
        return Err(Refusal::Damaged);
    };
    let Some(new_merges) = decide_flip(words, sizes, value, row) else {
        return Err(Refusal::Damaged);
    };
    Ok(Some(Moving {
        sizes,
        old,
        old_merges,
        new_merges,
    }))
}
