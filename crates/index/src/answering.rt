// The calls that change nothing: Value and Query.
ghost use Rattle.std.specs.Prelude.{◌≡◌};
ghost use Rattle.answers.specs.Outcome.{Gives};
ghost use Rattle.memory.specs.Memory.{memory_of};
ghost use Rattle.memory.specs.Reading.{value_paper};
ghost use Rattle.index.specs.Calls.{value_outcome, query_outcome};

use answers::Answer;
use block_read::fence::Fence;
use change_value::value::{enter_whole, list_value};
use fence_records::reading::read_row;
use memory::entry::enter_row;
use memory::header::Header;
use memory::row::{Value, refused, value_of};

// The state of a row, and the words opened to find it: at most d x (G + 2T + 1), in all d values, each from
// its fence on.
//
// Refuses, the lowest number first: BAD_HEADER, SMALL, NO_ROW, and DAMAGED where a read fails or two values
// have the row.
pub fn value(words: &[u32], fences: &[Fence], header: Header, row: u32) -> Value
    ensures { value_paper result ≡ value_outcome header (memory_of words.now fences.now) row }
{
    match enter_row(words.len(), fences.len(), header, row) {
        Err(refusal) => refused(refusal),
        Ok(sizes) => {
            let found = read_row(words, fences, header, sizes, row);
            value_of(found)
        }
    }
}

// Writes the canonical list of V xor U of a value; answers the number of words, at most M. Each word of both
// lists is read twice, once for the check, and each word of the result is written once.
//
// Refuses: BAD_HEADER, SMALL, BAD_VALUE, DAMAGED where a list of the value is not whole, OUT_SMALL. Output past
// the result stays, and on a refusal all of it does.
pub fn query(words: &[u32], fences: &[Fence], out: &mut [u32], header: Header, value: u32) -> Answer
    ensures { Gives (query_outcome header (memory_of words.now fences.now) value out.old) result out.new }
{
    let sizes = enter_whole(words, fences.len(), header, value)?;
    list_value(words, out, sizes, value)
}
