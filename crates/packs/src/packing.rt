// Pack: rows to their canonical list, one group after the other.
ghost use Rattle.std.specs.Prelude.{◌≡◌, true, ◌++◌, ◌≤◌, length, drop};
ghost use Rattle.answers.specs.Outcome.{Gives};
ghost use Rattle.groups.specs.Rows.{row_limit, are_bits};
ghost use Rattle.words.specs.Words.{packed};
ghost use Rattle.packs.specs.Calls.{pack_outcome};

use answers::{Answer, Refusal};
use groups::rows::{GROUP_LIMIT, ROW_LIMIT, all_bits, group_of, groups_for};
use words::give::give_list;
use words::writer::ListWriter;

// Writes the list of some rows to a place that is long enough; answers its length.
fn pack_into(rows: &[u8], out: &mut [u32]) -> usize
    requires { (are_bits rows.now ≡ true) × (length rows.now ≤ row_limit) × (length (packed rows.now) ≤ length out.old) }
    ensures { (result ≡ length (packed rows.now)) × (out.new ≡ packed rows.now ++ drop result out.old) }
{
    let mut list = ListWriter::new(out);
    for part in rows.chunks(31) {
        list.push(group_of(part), 1);
    }
    list.finish()
}

// As `pack` of rows that are in order, where the output may be too short for their list: the list is
// made aside and then given.
fn pack_aside(rows: &[u8], out: &mut [u32]) -> Answer
    requires { (are_bits rows.now ≡ true) × (length rows.now ≤ row_limit) }
    ensures { Gives (pack_outcome rows.now out.old) result out.new }
{
    let mut list = [0u32; GROUP_LIMIT];
    let length = pack_into(rows, &mut list);
    give_list(&list[..length], out)
}

// Pack: writes the canonical list of some rows, a byte 0 or 1 each, and answers its length in words.
//
// Refuses a byte above 1 (BAD_VALUE), more than 126,976 rows (FULL) and an output that is shorter than
// the list (OUT_SMALL); the output is then as it was. A word for each 31 rows, rounded up, is always
// enough, and 2k + 1 words are for k ones. The rows are read twice, once for the refusals; each word is
// written once, and once more from the stack where the output has fewer words than the rows have groups.
pub fn pack(rows: &[u8], out: &mut [u32]) -> Answer
    ensures { Gives (pack_outcome rows.now out.old) result out.new }
{
    if !all_bits(rows) {
        return Err(Refusal::BadValue);
    }
    if ROW_LIMIT < rows.len() {
        return Err(Refusal::Full);
    }
    if out.len() < groups_for(rows.len()) {
        return pack_aside(rows, out);
    }
    let words = pack_into(rows, out);
    Ok(words)
}
