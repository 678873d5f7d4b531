// Unpack: a canonical list to its rows, one word after the other.
ghost use Rattle.std.specs.Prelude.{◌≡◌, min, ◌+◌, ◌*◌, ◌≤◌, [], ◌∷◌, length, take, replicate};
ghost use Rattle.answers.specs.Outcome.{Gives};
ghost use Rattle.groups.specs.Rows.{row_limit, rows_of};
ghost use Rattle.words.specs.Words.{run_of, span, decode};
ghost use Rattle.packs.specs.Calls.{unpack_outcome};

use answers::{Answer, Refusal};
use groups::rows::{ROW_LIMIT, put_rows};
use list_check::check::check;
use words::word::{fill_bit, is_fill, span_of};

// Writes one row's value to all of `out`. A loop: std's `fill` sets its last element apart, which counts where fills are
// short.
fn put_fill(out: &mut [u8], bit: u8)
    ensures { out.new ≡ replicate (length out.old) bit }
{
    for row in out.iter_mut() {
        *row = bit;
    }
}

// Where the rows of a word end that begin at row `at`, of `length` rows in all.
fn end_of(word: u32, at: usize, length: usize) -> usize
    requires { (at ≤ length) × (length ≤ row_limit) }
    ensures { result ≡ min (at + 31 * span (run_of word)) length }
{
    (at + 31 * (span_of(word) as usize)).min(length)
}

// Writes the first rows of a word, as many as `out` has room for.
fn put_word(out: &mut [u8], word: u32)
    requires { length out.old ≤ 31 * span (run_of word) }
    ensures { out.new ≡ take (length out.old) (rows_of (decode (word ∷ []))) }
{
    if is_fill(word) {
        put_fill(out, fill_bit(word) as u8);
    } else {
        put_rows(out, word);
    }
}

// Writes the first rows of a list that has enough of them for all of `out`.
fn unpack_into(list: &[u32], out: &mut [u8])
    requires { (length out.old ≤ row_limit) × (length out.old ≤ 31 * length (decode list.now)) }
    ensures { out.new ≡ take (length out.old) (rows_of (decode list.now)) }
{
    let mut at: usize = 0;
    for word in list {
        let end = end_of(*word, at, out.len());
        put_word(&mut out[at..end], *word);
        at = end;
    }
}

// Unpack: writes the rows of the canonical list for `length` rows, a byte 0 or 1 each, and answers their
// number.
//
// Refuses more than 126,976 rows (FULL), an output of fewer bytes than rows (OUT_SMALL) and any other
// list than the canonical one (BAD_LIST); the output is then as it was. Each word is read twice, once for
// the check; each byte is written once.
pub fn unpack(list: &[u32], length: usize, out: &mut [u8]) -> Answer
    ensures { Gives (unpack_outcome list.now length out.old) result out.new }
{
    if ROW_LIMIT < length {
        return Err(Refusal::Full);
    }
    if out.len() < length {
        return Err(Refusal::OutSmall);
    }
    let Ok(()) = check(list, length) else {
        return Err(Refusal::BadList);
    };
    unpack_into(list, &mut out[..length]);
    Ok(length)
}
