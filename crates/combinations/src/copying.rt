// Words of one list that are copied as they are, where the other list has zeros.
ghost use Rattle.std.specs.Prelude.{◌≡◌, ◌<◌, ◌≤◌, length};
ghost use Rattle.words.specs.Words.{decode};
ghost use Rattle.lists.specs.Inner.{Formed};
ghost use Rattle.combinations.specs.Inner.{remaining, goes_on, Reaches, not_copied, Copies};

use crate::span::Span;
use words::word::{ALL_ONES, group_in, span_of};
use words::writer::Pending;

// How many words are looked at together.
const STRIDE: usize = 16;

// The first words of a list, and how many groups they cover.
#[derive(Clone, Copy)]
pub struct Reach {
    pub words: usize,
    pub groups: u32,
}

// What is written before the next step: the run that `ended` is, then `words` words as they are, which
// cover so many groups. After them the run `pending` is still to be written.
#[derive(Clone, Copy)]
pub struct Copying {
    pub ended: Pending,
    pub words: usize,
    pub groups: u32,
    pub pending: Pending,
}

// Whether a run that is pending goes on with the group.
fn goes_on(pending: Pending, group: u32) -> bool
    requires { pending.bit < 2 }
    ensures { result ≡ goes_on pending group }
{
    if pending.count == 0 {
        return false;
    }
    group == pending.bit * ALL_ONES
}

// How many groups some words cover. No early end, so that it can be vectorised.
fn covered_by(words: &[u32]) -> u32
    requires { length (decode words.now) ≤ 4096 }
    ensures { result ≡ length (decode words.now) }
{
    let mut groups: u32 = 0;
    for word in words {
        groups += span_of(*word);
    }
    groups
}

// As `reach_of`, a stride at a time.
fn reach_by_strides(list: &[u32], zeros: u32) -> Reach
    requires { (0 < zeros) × (zeros ≤ length (decode list.now)) × (length (decode list.now) ≤ 4096) }
    ensures { Reaches list.now zeros result }
{
    let mut reach = Reach {
        words: 0,
        groups: 0,
    };
    for stride in list.chunks_exact(STRIDE) {
        let end = reach.groups + covered_by(stride);
        if zeros <= end {
            break;
        }
        reach = Reach {
            words: reach.words + STRIDE,
            groups: end,
        };
    }
    reach
}

// The first words of a list that end before the last of its first `zeros` groups.
fn reach_of(list: &[u32], zeros: u32) -> Reach
    requires { (0 < zeros) × (zeros ≤ length (decode list.now)) × (length (decode list.now) ≤ 4096) }
    ensures { Reaches list.now zeros result }
{
    let mut reach = reach_by_strides(list, zeros);
    for word in &list[reach.words..] {
        let groups = reach.groups + span_of(*word);
        if zeros <= groups {
            break;
        }
        reach = Reach {
            words: reach.words + 1,
            groups,
        };
    }
    reach
}

// No word is copied.
fn no_copy(pending: Pending) -> Copying
    ensures { result ≡ not_copied pending }
{
    Copying {
        ended: Pending { bit: 0, count: 0 },
        words: 0,
        groups: 0,
        pending,
    }
}

// What can be copied of a list from a span on, beside a span of the other list. A group is left of the
// other's span, so that no run that is copied goes on after it.
pub fn next_copy(list: &[u32], from: Span, other: Span, pending: Pending) -> Copying
    requires { Formed list.now × (length (decode list.now) ≤ 4096) × (0 < other.left)
        × (other.left ≤ length (remaining list.now from)) × (pending.bit < 2) × (from.next ≤ length list.now) }
    ensures { Copies list.now from other pending result }
{
    if from.left != 0 {
        return no_copy(pending);
    }
    if other.group != 0 {
        return no_copy(pending);
    }
    let next = from.next;
    let word = list[next];
    if goes_on(pending, group_in(word)) {
        return no_copy(pending);
    }
    let reach = reach_of(&list[next..], other.left);
    Copying {
        ended: pending,
        words: reach.words,
        groups: reach.groups,
        pending: Pending { bit: 0, count: 0 },
    }
}
