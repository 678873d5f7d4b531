// The refusals that calls begin with, in the order of document 01's numbers 1 to 5.
ghost use Rattle.std.specs.Prelude.{◌≡◌};
ghost use Rattle.answers.specs.Outcome.{◌when◌};
ghost use Rattle.memory.specs.Memory.{between, limits, within_limits};
ghost use Rattle.memory.specs.Inner.{asked, entered_index, entered_value, entered_row, entered_update, entered_insert};

use crate::header::Header;
use answers::Refusal;
use blocks::sizes::{Sizes, sizes_for};
use groups::rows::ROW_LIMIT;

// What came of the checks that a call begins with: the sizes, or the first refusal that applies.
pub type Entry = Result<Sizes, Refusal>;

fn is_between(low: u32, high: u32, number: u32) -> bool
    ensures { result ≡ between low high number }
{
    low <= number && number <= high
}

// Whether R, d, T and G are within their limits.
pub fn limits_hold(rows: u32, values: u32, threshold: u32, spacing: u32) -> bool
    ensures { result ≡ limits rows values threshold spacing }
{
    if !is_between(1, ROW_LIMIT as u32, rows) {
        return false;
    }
    if !is_between(1, 64, values) {
        return false;
    }
    if !is_between(1, 255, threshold) {
        return false;
    }
    is_between(1, 256, spacing)
}

fn header_holds(header: Header) -> bool
    ensures { result ≡ within_limits header }
{
    if !limits_hold(header.rows, header.values, header.threshold, header.spacing) {
        return false;
    }
    header.issued <= header.rows
}

// For a call on the whole index: BAD_HEADER, then SMALL, for so many words and fences lent.
pub fn enter_index(words: usize, fences: usize, header: Header) -> Entry
    ensures { result ≡ entered_index words fences header }
{
    if !header_holds(header) {
        return Err(Refusal::BadHeader);
    }
    let sizes = sizes_for(header.rows, header.threshold, header.spacing);
    let values = header.values as usize;
    if words < values * sizes.block {
        return Err(Refusal::Small);
    }
    if fences < values * sizes.fences {
        return Err(Refusal::Small);
    }
    Ok(sizes)
}

// One check more, after those that an entry has passed.
pub fn ask<T: Drop>(
    entry: Result<T, Refusal>,
    refusal: Refusal,
    applies: bool,
) -> Result<T, Refusal>
    ensures { result ≡ asked entry (refusal when applies) }
{
    let passed = entry?;
    if applies {
        return Err(refusal);
    }
    Ok(passed)
}

// For a call on a value: then BAD_VALUE.
pub fn enter_value(words: usize, fences: usize, header: Header, value: u32) -> Entry
    ensures { result ≡ entered_value words fences header value }
{
    ask(
        enter_index(words, fences, header),
        Refusal::BadValue,
        header.values <= value,
    )
}

// For a call on a row: then NO_ROW.
pub fn enter_row(words: usize, fences: usize, header: Header, row: u32) -> Entry
    ensures { result ≡ entered_row words fences header row }
{
    ask(
        enter_index(words, fences, header),
        Refusal::NoRow,
        header.issued <= row,
    )
}

// For a change of a row to a value: then BAD_VALUE, then NO_ROW.
pub fn enter_update(words: usize, fences: usize, header: Header, row: u32, value: u32) -> Entry
    ensures { result ≡ entered_update words fences header row value }
{
    ask(
        enter_value(words, fences, header, value),
        Refusal::NoRow,
        header.issued <= row,
    )
}

// For one row more, of a value: then BAD_VALUE, then FULL.
pub fn enter_insert(words: usize, fences: usize, header: Header, value: u32) -> Entry
    ensures { result ≡ entered_insert words fences header value }
{
    ask(
        enter_value(words, fences, header, value),
        Refusal::Full,
        header.rows <= header.issued,
    )
}
