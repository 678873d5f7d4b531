// The list of one row alone: at most three words.
ghost use Rattle.std.specs.Prelude.{◌/◌, ◌<◌, ◌≤◌};
ghost use Rattle.lists.specs.Inner.{one_row, Packs};

use groups::rows::MASKS;
use words::writer::ListWriter;

// A list of at most three words: the first `count` of them.
#[derive(Clone, Copy)]
pub struct Short {
    pub words: [u32; 3],
    pub count: usize,
}

// The list for `groups` groups whose only 1 is the row.
pub fn one_row(groups: u32, row: u32) -> Short
    requires { (row / 31 < groups) × (groups ≤ 4096) }
    ensures { Packs (one_row groups row) result }
{
    let before = row / 31;
    let after = groups - before - 1;
    let place = (row % 31) as usize;
    let mut words = [0u32; 3];
    let mut list = ListWriter::new(&mut words);
    list.push_zeros(before);
    list.push(MASKS[place], 1);
    list.push_zeros(after);
    let count = list.finish();
    Short { words, count }
}
