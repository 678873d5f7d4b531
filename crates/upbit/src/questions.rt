// The calls that change nothing of an index, under their C names. Each is the call of `index` that its body
// names, where its refusals and costs are said.
ghost use Rattle.std.specs.Prelude.{◌≡◌};
ghost use Rattle.memory.specs.Memory.{memory_of};
ghost use Rattle.index.specs.Calls.{value_outcome, query_outcome, dump_outcome, audit_outcome};
ghost use Rattle.upbit.specs.Told.{Tells, answer_numbers_of, row_numbers_of};

use crate::numbers::{AnswerNumbers, RowNumbers};
use block_read::fence::Fence;
use index::answering::{query, value};
use index::auditing::audit;
use index::dumping::dump;
use memory::header::Header;

#[unsafe(no_mangle)]
pub extern "C" fn upbit_value(
    words: &[u32],
    fences: &[Fence],
    header: Header,
    row: u32,
) -> RowNumbers
    ensures { result ≡ row_numbers_of (value_outcome header (memory_of words.now fences.now) row) }
{
    RowNumbers::from(value(words, fences, header, row))
}

#[unsafe(no_mangle)]
pub extern "C" fn upbit_query(
    words: &[u32],
    fences: &[Fence],
    out: &mut [u32],
    header: Header,
    value: u32,
) -> AnswerNumbers
    ensures { Tells (query_outcome header (memory_of words.now fences.now) value out.old) result out.new }
{
    AnswerNumbers::from(query(words, fences, out, header, value))
}

#[unsafe(no_mangle)]
pub extern "C" fn upbit_dump(
    words: &[u32],
    fences: &[Fence],
    out: &mut [u8],
    header: Header,
) -> AnswerNumbers
    ensures { Tells (dump_outcome header (memory_of words.now fences.now) out.old) result out.new }
{
    AnswerNumbers::from(dump(words, fences, out, header))
}

#[unsafe(no_mangle)]
pub extern "C" fn upbit_audit(words: &[u32], fences: &[Fence], header: Header) -> AnswerNumbers
    ensures { result ≡ answer_numbers_of (audit_outcome header (memory_of words.now fences.now)).answer }
{
    AnswerNumbers::from(audit(words, fences, header))
}
