// What an index needs, told before anything is lent.
ghost use Rattle.std.specs.Prelude.{◌≡◌};
ghost use Rattle.upbit.specs.Room.{room_outcome};

use crate::numbers::RoomNumbers;
use answers::Refusal;
use blocks::sizes::sizes_for;
use memory::entry::limits_hold;

// The words and fences to lend for R, d, T and G: d x B and d x F.
//
// Refuses: BAD_HEADER.
#[unsafe(no_mangle)]
pub extern "C" fn upbit_room_for(
    rows: u32,
    values: u32,
    threshold: u32,
    spacing: u32,
) -> RoomNumbers
    ensures { result ≡ room_outcome rows values threshold spacing }
{
    if !limits_hold(rows, values, threshold, spacing) {
        return RoomNumbers {
            number: u32::from(Refusal::BadHeader),
            words: 0,
            fences: 0,
        };
    }
    let sizes = sizes_for(rows, threshold, spacing);
    RoomNumbers {
        number: 0,
        words: values as usize * sizes.block,
        fences: values as usize * sizes.fences,
    }
}
