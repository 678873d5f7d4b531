// The sizes of an index, which the blocks of all values share.
ghost use Rattle.std.specs.Prelude.{◌≡◌, ◌≤◌};
ghost use Rattle.groups.specs.Rows.{row_limit};
ghost use Rattle.blocks.specs.Sizes.{sizes_for, fences_for};

use groups::rows::groups_for;
use std::marker::Model;

// Row capacity R, groups M, the words of V's room and of U's, threshold T, fence spacing G, the words B of a
// block and the fences F of a value: worked out once, from a header within its limits.
#[derive(Clone, Copy)]
pub struct Sizes {
    pub rows: u32,
    pub groups: u32,
    pub value_room: usize,
    pub update_room: usize,
    pub threshold: u32,
    pub spacing: u32,
    pub block: usize,
    pub fences: usize,
}

// Every value is within the limits of a header.
impl Model for Sizes {
    ghost use Rattle.blocks.specs.Sizes.{Sizes};

    ghost Value = { Sizes };

    ghost use Rattle.blocks.specs.Inner.{Limits, numbers_of, fields_of};

    ghost view = { numbers_of };

    ghost invariant = { λ sizes. Limits (numbers_of sizes) };

    ghost inverse = { fields_of };
}

// How many fences some groups have, one for every G of them.
#[tactic(auto, unfolding(crate::specs::Sizes::fences_for))]
pub fn fences_for(groups: u32, spacing: u32) -> u32
    requires { (groups ≤ 4096) × (1 ≤ spacing) × (spacing ≤ 256) }
    ensures { result ≡ fences_for groups spacing }
{
    (groups + (spacing - 1)) / spacing
}

// The sizes of an index with these numbers of its header.
pub fn sizes_for(rows: u32, threshold: u32, spacing: u32) -> Sizes
    requires { (1 ≤ rows) × (rows ≤ row_limit) × (1 ≤ threshold) × (threshold ≤ 255) × (1 ≤ spacing) × (spacing ≤ 256) }
    ensures { result ≡ sizes_for rows threshold spacing }
{
    let value_room = groups_for(rows as usize);
    let groups = value_room as u32;
    let fences = fences_for(groups, spacing);
    let update_room = (2 * threshold + 1) as usize;
    Sizes {
        rows,
        groups,
        value_room,
        update_room,
        threshold,
        spacing,
        block: 2 + value_room + update_room,
        fences: fences as usize,
    }
}
