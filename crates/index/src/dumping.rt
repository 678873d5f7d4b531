// Dump: what Value finds for each row below n. The rows are marked in an array of bytes of its own, since a row
// may turn out damaged at the very end.
ghost use Rattle.std.specs.Prelude.{length};
ghost use Rattle.answers.specs.Outcome.{Gives};
ghost use Rattle.index.specs.Calls.{dump_outcome};
ghost use Rattle.memory.specs.Inner.{Planned};
ghost use Rattle.memory.specs.Memory.{memory_of};

use answers::{Answer, Refusal};
use block_read::fence::Fence;
use blocks::sizes::Sizes;
use dump_spans::dump::give_rows;
use fence_records::marking::mark_values;
use groups::rows::ROW_LIMIT;
use memory::entry::enter_index;
use memory::header::Header;

// Dump of an index whose header and sizes hold.
fn dump_rows(
    words: &[u32],
    fences: &[Fence],
    out: &mut [u8],
    header: Header,
    sizes: Sizes,
) -> Answer
    requires { Planned header sizes (length words.now) (length fences.now) }
    ensures { Gives (dump_outcome header (memory_of words.now fences.now) out.old) result out.new }
{
    let mut rows = [255u8; ROW_LIMIT];
    if !mark_values(words, fences, &mut rows, header, sizes) {
        return Err(Refusal::Damaged);
    }
    give_rows(&rows, out, header.issued)
}

// Writes for each row below n the byte of its value, or 255 for a deleted row; answers n. It takes 126,976
// bytes of stack.
//
// Refuses: BAD_HEADER, SMALL, DAMAGED where Value would find a row damaged, OUT_SMALL. Output past the result
// stays, and on a refusal all of it does.
pub fn dump(words: &[u32], fences: &[Fence], out: &mut [u8], header: Header) -> Answer
    ensures { Gives (dump_outcome header (memory_of words.now fences.now) out.old) result out.new }
{
    let sizes = enter_index(words.len(), fences.len(), header)?;
    dump_rows(words, fences, out, header, sizes)
}
