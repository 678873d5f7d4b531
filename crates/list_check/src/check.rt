// The whole check of a list: whether it is canonical for its rows. Ones are counted apart, where they are needed.
ghost use Rattle.std.specs.Prelude.{◌≡◌, ◌+◌, ◌-◌, ◌*◌, ◌%◌, ◌^◌, ◌<◌, ◌≤◌, true, ◌&&◌, ◌∷◌, map, length, if◌then◌else◌, ◌==◌, slice_index};
ghost use Rattle.groups.specs.Rows.{row_limit, ones_in, bits_of, rows_of};
ghost use Rattle.words.specs.Words.{run_of, span, group_in, decode, no_fill, keeps_form, bit_after, well_formed};
ghost use Rattle.list_check.specs.Inner.{check_of, Mixed, AllMixed, PassedTo};

use groups::rows::groups_for;
use std::num::{wrapping_add_u32, wrapping_sub_u32};
use words::word::{ALL_ONES, fill_bit, fill_count, group_in, is_fill};

// No word of a whole list covers this many groups, and where each word covers fewer, 32 bits hold the sum
// over a list.
const TOO_MANY: u32 = 0x8000;

// What stands for a word that does not keep the form.
const FAULT: u32 = 0xFFFFFFFF;

// How many words are looked at together for runs.
const STRIDE: usize = 64;

// The list is not the canonical one for its number of rows.
#[derive(Clone, Copy)]
pub struct NotCanonical;

// One of two numbers. Both are at hand, so that the pass over a list has no branch and is vectorised.
fn pick(test: bool, yes: u32, no: u32) -> u32
    ensures { result ≡ (if test then yes else no) }
{
    if test { yes } else { no }
}

// How many groups a word covers beyond one; too many where it breaks the form after the word before it.
// Bits 31 and 30 of a word say whether it is a fill, and of which bit. A fill that counts no group wraps to
// a fault.
fn excess_of(before: u32, word: u32) -> u32
    ensures { (keeps_form (bit_after (run_of before)) (run_of word) ≡ true → result + 1 ≡ span (run_of word))
        × (result < 0x8000 → keeps_form (bit_after (run_of before)) (run_of word) ≡ true) }
{
    let counted = wrapping_sub_u32(fill_count(word), 1);
    let fill = pick(before >> 30 == word >> 30, FAULT, counted);
    let excess = pick(is_fill(word), fill, 0);
    pick(word == 0, FAULT, pick(word == ALL_ONES, FAULT, excess))
}

// The word in front of place i. No fill stands before the first word: 0 is read as a literal.
fn word_before(list: &[u32], i: usize) -> u32
    requires { i ≤ length list.now }
    ensures { result ≡ slice_index (0 ∷ list.now) i }
{
    if i == 0 { 0 } else { list[i - 1] }
}

// What the words of a list have shown so far: the bits of what each covers beyond one group, and the sum of that.
#[derive(Clone, Copy)]
pub struct Shown {
    pub gathered: u32,
    pub covered: u32,
}

// A number with bit 31 set where a word is a fill, or a literal whose bits are all alike.
fn run_mark(word: u32) -> u32
    ensures { result < 0x80000000 → Mixed word }
{
    wrapping_sub_u32(word, 1) | wrapping_add_u32(word, 1)
}

// True only where no word is a run. For each word it does a third of the work of `pass_from`.
fn all_mixed(words: &[u32]) -> bool
    ensures { result ≡ true → AllMixed words.now }
{
    let mut marks: u32 = 0;
    for word in words {
        marks |= run_mark(*word);
    }
    marks >> 31 == 0
}

// A place with only mixed words before it: in a list without runs, the end. Where runs are common, one of the
// first words is a run, and the question costs little.
fn mixed_front(list: &[u32]) -> usize
    requires { length list.now ≤ 4096 }
    ensures { PassedTo list.now 0 0 result }
{
    let mut place: usize = 0;
    for stride in list.chunks(STRIDE) {
        if !all_mixed(stride) {
            return place;
        }
        place += stride.len();
    }
    place
}

// The pass over the words from a place on that has only mixed words before it: without an early end, so
// that it is vectorised. The sum can wrap only where a word covers too many, and the bits of all words
// together show that.
fn pass_from(list: &[u32], from: usize) -> Shown
    requires { PassedTo list.now 0 0 from × (length list.now ≤ 4096) }
    ensures { PassedTo list.now result.gathered result.covered (length list.now) }
{
    if list.len() <= from {
        return Shown {
            gathered: 0,
            covered: 0,
        };
    }
    let first = excess_of(word_before(list, from), list[from]);
    let mut gathered = first;
    let mut covered = first;
    for i in from + 1..list.len() {
        let excess = excess_of(list[i - 1], list[i]);
        gathered |= excess;
        covered = wrapping_add_u32(covered, excess);
    }
    Shown { gathered, covered }
}

// Whether the words of a list keep the form and cover so many groups. Each word is read once, except those
// next to the first run.
fn keeps_form(list: &[u32], groups: usize) -> bool
    requires { (length list.now ≤ groups) × (groups ≤ 4096) }
    ensures { result ≡ (well_formed no_fill (map run_of list.now) && length (decode list.now) == groups) }
{
    let shown = pass_from(list, mixed_front(list));
    if TOO_MANY <= shown.gathered {
        return false;
    }
    (shown.covered as usize) + list.len() == groups
}

// The group of the last word; 0 where there is none.
fn last_group(list: &[u32]) -> u32
    ensures { result ≡ group_in (run_of (slice_index list.now (length list.now - 1))) }
{
    match list.last() {
        Some(word) => group_in(*word),
        None => 0,
    }
}

// Whether the lowest bits of a group are zero, `unused` of them.
fn tail_clear(group: u32, unused: usize) -> bool
    requires { unused < 31 }
    ensures { result ≡ (group % 2 ^ unused == 0) }
{
    group & ((1 << unused) - 1) == 0
}

// The whole check of a list for `length` rows: one pass, whatever the words are, unless there are more
// words than groups.
pub fn check(list: &[u32], length: usize) -> Result<(), NotCanonical>
    requires { length ≤ row_limit }
    ensures { result ≡ check_of list.now length }
{
    let groups = groups_for(length);
    if groups < list.len() {
        return Err(NotCanonical);
    }
    if !keeps_form(list, groups) {
        return Err(NotCanonical);
    }
    if !tail_clear(last_group(list), groups * 31 - length) {
        return Err(NotCanonical);
    }
    Ok(())
}

// How many ones a word stands for.
fn ones_in(word: u32) -> u32
    requires { 31 * span (run_of word) ≤ row_limit }
    ensures { result ≡ span (run_of word) * ones_in (bits_of 31 (group_in (run_of word))) }
{
    if is_fill(word) {
        return fill_count(word) * (fill_bit(word) * 31);
    }
    u32::count_ones(word)
}

// How many ones a list has: one pass, each word read once.
pub fn ones_of(list: &[u32]) -> u32
    requires { 31 * length (decode list.now) ≤ row_limit }
    ensures { result ≡ ones_in (rows_of (decode list.now)) }
{
    let mut ones: u32 = 0;
    for word in list {
        ones += ones_in(*word);
    }
    ones
}
