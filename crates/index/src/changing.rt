// The calls that change rows: Merge, Insert, Delete and Update. Each decides first what is to be done, which
// changes nothing, and then carries it out.
ghost use Rattle.memory.specs.Memory.{memory_of};
ghost use Rattle.memory.specs.Outcomes.{Leaves};
ghost use Rattle.index.specs.Calls.{merge_after, insert_after, delete_after, update_after};

use crate::deciding::{decide_delete, decide_insert, decide_update};
use block_read::fence::Fence;
use change_value::value::enter_whole;
use fence_records::changing::{flip_fenced, merge_fenced};
use memory::header::{Changed, Header, done, grow, refuse};

// Merges a value: V becomes V xor U, its fences are made anew and U becomes all zero. On a sound index this
// changes no Query, Value state or Dump; on one whose lists are whole it mends fences and unused words.
//
// Refuses: BAD_HEADER, SMALL, BAD_VALUE, DAMAGED where a list of the value is not whole.
pub fn merge(words: &mut [u32], fences: &mut [Fence], header: Header, value: u32) -> Changed
    ensures { Leaves (merge_after header (memory_of words.old fences.old) value) result words.new fences.new }
{
    match enter_whole(words, fences.len(), header, value) {
        Err(refusal) => refuse(header, refusal),
        Ok(sizes) => {
            merge_fenced(words, fences, sizes, value);
            done(header)
        }
    }
}

// Adds a row of a value; answers the row, and gives the header with one row more. It reads row n in all
// values, and touches the words and fences of one.
//
// Refuses: BAD_HEADER, SMALL, BAD_VALUE, FULL, DAMAGED where a read of row n fails or finds a 1, or where a list
// of the value is not whole.
pub fn insert(words: &mut [u32], fences: &mut [Fence], header: Header, value: u32) -> Changed
    ensures { Leaves (insert_after header (memory_of words.old fences.old) value) result words.new fences.new }
{
    match decide_insert(words, fences, header, value) {
        Err(refusal) => refuse(header, refusal),
        Ok(flip) => {
            flip_fenced(
                words,
                fences,
                flip.sizes,
                flip.value,
                header.issued,
                flip.merges,
            );
            grow(header)
        }
    }
}

// Deletes a row: its number is not used again. It reads the row in all values, and touches the words and
// fences of one.
//
// Refuses: BAD_HEADER, SMALL, NO_ROW, DAMAGED where the row is damaged, GONE where it is deleted already, and
// DAMAGED where a list of its value is not whole.
pub fn delete(words: &mut [u32], fences: &mut [Fence], header: Header, row: u32) -> Changed
    ensures { Leaves (delete_after header (memory_of words.old fences.old) row) result words.new fences.new }
{
    match decide_delete(words, fences, header, row) {
        Err(refusal) => refuse(header, refusal),
        Ok(flip) => {
            flip_fenced(words, fences, flip.sizes, flip.value, row, flip.merges);
            done(header)
        }
    }
}

// Gives a row another value. To the value that it has, it is accepted and changes nothing. It reads the row in
// all values, and touches the words and fences of two; both are checked before either is written.
//
// Refuses: BAD_HEADER, SMALL, BAD_VALUE, NO_ROW, DAMAGED where the row is damaged, GONE where it is deleted, and
// DAMAGED where a list of the old or the new value is not whole.
pub fn update(
    words: &mut [u32],
    fences: &mut [Fence],
    header: Header,
    row: u32,
    value: u32,
) -> Changed
    ensures { Leaves (update_after header (memory_of words.old fences.old) row value) result words.new fences.new }
{
    match decide_update(words, fences, header, row, value) {
        Err(refusal) => refuse(header, refusal),
        Ok(None) => done(header),
        Ok(Some(moving)) => {
            let sizes = moving.sizes;
            flip_fenced(words, fences, sizes, moving.old, row, moving.old_merges);
            flip_fenced(words, fences, sizes, value, row, moving.new_merges);
            done(header)
        }
    }
}
