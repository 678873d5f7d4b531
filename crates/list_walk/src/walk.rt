// Document 01, "Reading one bit": the walk over a list to the word that covers one group.
ghost use Rattle.std.specs.Prelude.{◌≡◌, ℕ, ◌+◌, ◌≤◌};
ghost use Rattle.list_walk.specs.Walk.{walk_to};

use words::word::span_of;

// The word that covers the group sought, how many groups after that one it covers too, and how many
// words were opened to find it, itself included.
#[derive(Clone, Copy)]
pub struct Covering {
    pub word: u32,
    pub beyond: u32,
    pub opened: usize,
}

// From the start of a list, or of the part of one that begins with the word whose first group is
// `first`, to the word that covers `group`, opening at most `budget` words; none if that is damaged.
pub fn walk_to(list: &[u32], first: u32, group: u32, budget: usize) -> Option<Covering>
    ensures { result ≡ walk_to list.now first group budget }
{
    if group < first {
        return None;
    }
    let most = budget.min(list.len());
    let mut skip = group - first;
    for (place, &word) in list[..most].iter().enumerate() {
        let span = span_of(word);
        if span == 0 {
            return None;
        }
        if skip < span {
            return Some(Covering {
                word,
                beyond: span - 1 - skip,
                opened: place + 1,
            });
        }
        skip -= span;
    }
    None
}

// On from the word that covers a group to the one that covers the group `skip` groups after it, which
// is the same word or the next one: the words before them are not opened again.
pub fn walk_on(list: &[u32], before: Covering, skip: u32, budget: usize) -> Option<Covering>
    requires { skip ≤ before.beyond + 1 }
    ensures { (first group : ℕ) → walk_to list.now first group budget ≡ Some before
        → result ≡ walk_to list.now first (group + skip) budget }
{
    if skip <= before.beyond {
        return Some(Covering {
            beyond: before.beyond - skip,
            ..before
        });
    }
    let next = before.opened;
    if list.len() <= next {
        return None;
    }
    if budget <= next {
        return None;
    }
    let word = list[next];
    let count = span_of(word);
    if count == 0 {
        return None;
    }
    Some(Covering {
        word,
        beyond: count - 1,
        opened: next + 1,
    })
}
