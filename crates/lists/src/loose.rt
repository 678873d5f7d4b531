// Loose groups, one a word: the groups of a list turned over in them, and the rows that are taken.
ghost use Rattle.std.specs.Prelude.{◌≡◌, ◌++◌, ◌+◌, ◌<◌, ◌≤◌, length, take, drop, replicate};
ghost use Rattle.groups.specs.Inner.{Groups};
ghost use Rattle.words.specs.Words.{run_of, span, group_in, decode};
ghost use Rattle.lists.specs.Combine.{exclusive, combined};
ghost use Rattle.lists.specs.Inner.{either, turned_from, apart};

use words::word::{group_in, is_ones_fill, span_of};

// XORs one group into each of some groups.
fn turn_over_each(groups: &mut [u32], group: u32)
    requires { Groups groups.old × (group < 0x80000000) }
    ensures { groups.new ≡ combined exclusive groups.old (replicate (length groups.old) group) }
{
    for turned in groups.iter_mut() {
        *turned ^= group;
    }
}

// XORs the groups of a word into those from a place on; answers the place after them. Literals and fills
// of zeros come in any order, so no branch tells them apart: a fill of zeros is one XOR with 0, where a
// group is left.
fn turn_over_word(groups: &mut [u32], at: usize, word: u32) -> usize
    requires { Groups groups.old × (at + span (run_of word) ≤ length groups.old) }
    ensures { (result ≡ at + span (run_of word))
        × (groups.new ≡ turned_from groups.old at (span (run_of word)) (group_in (run_of word))) }
{
    let group = group_in(word);
    let end = at + span_of(word) as usize;
    if is_ones_fill(word) {
        turn_over_each(&mut groups[at..end], group);
        return end;
    }
    if at < groups.len() {
        groups[at] ^= group;
    }
    end
}

// XORs the groups of a list into the first of some groups. Each word is opened once.
pub fn turn_over_groups(list: &[u32], groups: &mut [u32])
    requires { Groups groups.old × (length (decode list.now) ≤ length groups.old) }
    ensures { groups.new ≡ combined exclusive (take (length (decode list.now)) groups.old) (decode list.now)
        ++ drop (length (decode list.now)) groups.old }
{
    let mut at: usize = 0;
    for &word in list {
        at = turn_over_word(groups, at, word);
    }
}

// Whether no row of some groups is taken already; after the call they are taken too. One pass without an
// early end, so that it can be vectorised.
pub fn take_rows(taken: &mut [u32], groups: &[u32]) -> bool
    requires { Groups taken.old × Groups groups.now × (length taken.old ≡ length groups.now) }
    ensures { (result ≡ apart taken.old groups.now) × (taken.new ≡ combined either taken.old groups.now) }
{
    let mut twice: u32 = 0;
    for (i, &group) in groups.iter().enumerate() {
        twice |= taken[i] & group;
        taken[i] |= group;
    }
    twice == 0
}
