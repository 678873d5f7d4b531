// Whether a packed list has no 1 from a row on.
ghost use Rattle.std.specs.Prelude.{◌≡◌, ◌≤◌};
ghost use Rattle.groups.specs.Rows.{row_limit, clear_from};
ghost use Rattle.words.specs.Words.{decode};
ghost use Rattle.lists.specs.Inner.{Covers};

use words::word::{group_in, span_of};

// Looks at the list from its end: words of zeros are passed, and the last 1 of the first other word
// decides. A canonical list is decided by its last two words.
pub fn clear_from(list: &[u32], groups: u32, row: u32) -> bool
    requires { Covers groups list.now × (groups ≤ 4096) × (row ≤ row_limit) }
    ensures { result ≡ clear_from row (decode list.now) }
{
    let mut end = groups;
    for &word in list.iter().rev() {
        let group = group_in(word);
        if group != 0 {
            return 31 * end <= row + group.trailing_zeros();
        }
        end -= span_of(word);
    }
    true
}
