// Document 01, "Reading one bit": a row in every value, each read from its fence on.
ghost use Rattle.std.specs.Prelude.{◌≡◌, length};
ghost use Rattle.memory.specs.Inner.{Planned};
ghost use Rattle.memory.specs.Memory.{memory_of};
ghost use Rattle.memory.specs.Reading.{row_of};

use crate::records::fence_at;
use block_read::fence::Fence;
use blocks::sizes::Sizes;
use memory::fence::fence_of;
use memory::header::Header;
use memory::row::{Row, no_row, row_mask, row_step};

// Reads a row in all d values; it never stops at a hit.
pub fn read_row(words: &[u32], fences: &[Fence], header: Header, sizes: Sizes, row: u32) -> Row
    requires { Planned header sizes (length words.now) (length fences.now) }
    ensures { result ≡ row_of header (memory_of words.now fences.now) row }
{
    let nearest = fence_of(sizes.spacing, row);
    let mask = row_mask(row);
    let count = sizes.fences;
    let mut found = no_row();
    for value in 0..header.values {
        let place = value as usize * count + nearest;
        let fence = fence_at(fences, place);
        found = row_step(words, sizes, fence, row, mask, value, found);
    }
    found
}
